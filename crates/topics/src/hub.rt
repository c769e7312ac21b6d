//! Channels by name, and requests to them: one, or a list.
ghost use Rattle.std.specs.Prelude.{◌≡◌, ◌<◌, ℕ, List, [], None, Some, is_some, IfOk, IfErr, length, string_bytes};
ghost use Rattle.std.specs.List.{AllByRecursion, zip};
ghost use Rattle.bcast_model.specs.Next.{HasPositiveCapacity};
ghost use Rattle.topics.specs.Request.{OpensPositive, IsAnswerTo};
ghost use Rattle.topics.specs.Hub.{topic_of, Asks, IsNew, IsOpened, IsCall, KeepsOthers};
ghost use Rattle.topics.specs.Part.{AreAnswers, AreTopics};

use crate::request::{Answer, Request, is_name};
use bcast_core::{Call, Inner, Silent, step};
use std::alloc::{AllocError, Allocator, Global};
use std::collections::HashMap;
use std::hash::{BuildHasher, BuildHasherDefault, FoldHasher};

/// A topic's channel, under its name.
type Topics<T, A, S> = HashMap<String<A>, Inner<T, Silent, A>, S, A>;

/// Topics: channels that are named, and opened by request. A topic is never removed, closed or not.
///
/// Names are hashed with the hashers that `S` makes.
#[derive(Drop)]
pub struct Hub<T, A: Allocator = Global, S: BuildHasher = BuildHasherDefault<FoldHasher>> {
    alloc: A,
    topics: Topics<T, A, S>,
}

impl<T: Clone, A: Allocator + Copy> Hub<T, A> {
    /// A hub without topics.
    ///
    /// The seed of its hash is fixed: if strangers choose the names, use `with_hasher`.
    pub fn new(alloc: A) -> Self
        ensures { (name : List ℕ) → topic_of result name ≡ None }
    {
        Hub::with_hasher(alloc, BuildHasherDefault::new())
    }
}

impl<T: Clone, A: Allocator + Copy, S: BuildHasher> Hub<T, A, S> {
    /// A hub without topics, whose names are hashed with `hash_builder`.
    ///
    /// It can be std's `RandomState`, which is made from random bytes. No clause is about hashes.
    pub fn with_hasher(alloc: A, hash_builder: S) -> Self
        ensures { (name : List ℕ) → topic_of result name ≡ None }
    {
        Hub {
            alloc,
            topics: HashMap::with_hasher(alloc, hash_builder),
        }
    }

    /// Answers one request.
    ///
    /// A topic is opened with `Inner::new(alloc, capacity)`, whose first receiver is deactivated:
    /// so the topic stays open while nobody follows it. Each other request makes one call on the
    /// topic's channel.
    pub fn ask(&mut self, request: Request<T, A>) -> Answer<T>
        requires { OpensPositive request }
        ensures { Asks T.is_clone (topic_of self.old) request result (topic_of self.new) }
    {
        if !is_name(request.name()) {
            return Answer::BadName;
        }
        match request {
            Request::Open(name, capacity) => self.open(name, capacity),
            Request::Follow(name) => self.call(name.as_str(), Call::NewReceiver),
            Request::Publish(name, msg) => self.call(name.as_str(), Call::TryBroadcast(msg)),
            Request::Receive(name, key) => self.call(name.as_str(), Call::TryRecv(key)),
            Request::Leave(name, key) => self.call(name.as_str(), Call::DropReceiver(key)),
            Request::Close(name) => self.call(name.as_str(), Call::Close),
        }
    }

    // Opens a topic of this name.
    fn open(&mut self, name: String<A>, capacity: usize) -> Answer<T>
        requires { 0 < capacity }
        ensures answer { IsAnswerTo (is_some (topic_of self.old (string_bytes name))) None result }
        ensures topic { IsOpened T.is_clone capacity result (topic_of self.old (string_bytes name))
            (topic_of self.new (string_bytes name)) }
        ensures others { KeepsOthers (topic_of self.old) (string_bytes name) (topic_of self.new) }
    {
        if self.topics.contains_key(name.as_str()) {
            return Answer::Exists;
        }
        let Ok(topic) = new_topic(self.alloc, capacity) else {
            return Answer::Memory;
        };
        match self.topics.insert(name, topic) {
            Ok(_) => Answer::Opened,
            Err(_) => Answer::Memory,
        }
    }

    // Makes a call on the topic of this name.
    fn call(&mut self, name: &str, call: Call<T>) -> Answer<T>
        requires { HasPositiveCapacity call }
        ensures answer { IsAnswerTo (is_some (topic_of self.old name.now)) (Some call) result }
        ensures topic { IsCall T.is_clone (Some call) result (topic_of self.old name.now)
            (topic_of self.new name.now) }
        ensures others { KeepsOthers (topic_of self.old) name.now (topic_of self.new) }
    {
        match self.topics.get_mut(name) {
            Some(topic) => Answer::Done(step(topic, call, Silent)),
            None => Answer::NoTopic,
        }
    }
}

// A channel of this capacity whose first receiver is deactivated.
fn new_topic<T: Clone, A: Allocator + Copy>(
    alloc: A,
    capacity: usize,
) -> Result<Inner<T, Silent, A>, AllocError>
    requires { 0 < capacity }
    ensures { IfOk result (λ topic. IsNew T.is_clone capacity (Some topic)) }
{
    let (mut topic, first_key) = Inner::new(alloc, capacity)?;
    match topic.deactivate(first_key) {
        Ok(()) => Ok(topic),
        Err(_) => Err(AllocError),
    }
}

/// Answers all requests in order, on a hub of its own.
///
/// The capacities of new topics must be positive.
///
/// # Errors
///
/// The requests are returned, and none was made: memory for the answers was refused.
pub fn run_hub<T: Clone, A: Allocator + Copy>(
    alloc: A,
    requests: Vec<Request<T, A>, A>,
) -> Result<(Hub<T, A>, Vec<Answer<T>, A>), Vec<Request<T, A>, A>>
    requires { AllByRecursion OpensPositive requests.items }
    ensures count { IfOk result (λ made. length made.1.items ≡ length requests.items) }
    // Each answer fits its request, and whether the topic was opened before it.
    ensures answers { IfOk result (λ made. AreAnswers [] (zip requests.items made.1.items)) }
    // The calls on each topic are a run of a channel of its own.
    ensures topics { IfOk result (λ made.
        AreTopics T.is_clone (zip requests.items made.1.items) made.0) }

    ensures refused { IfErr result (λ back. back.items ≡ requests.items) }
{
    let Ok(mut answers) = Vec::with_capacity(alloc, requests.len()) else {
        return Err(requests);
    };
    let mut hub = Hub::new(alloc);
    for request in requests {
        answers.push_reserved(hub.ask(request));
    }
    Ok((hub, answers))
}
