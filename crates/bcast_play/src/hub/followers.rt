//! The followers of topics by name, and the requests that lines ask for.
ghost use Rattle.std.specs.Prelude.{◌≡◌, ◌≢◌, ℕ, List, Some, None, Err, IfOk, OnOk, string_bytes, bytes_eq};
ghost use Rattle.std.specs.Map.{update};
ghost use Rattle.topics.specs.Request.{OpensPositive};
ghost use Rattle.bcast_play.specs.TopicsLine.{IsInForm};
ghost use Rattle.bcast_play.specs.TopicsRequest.{IsRequest, IsAboutNobody, names_after};
ghost use Rattle.bcast_play.specs.Shown.{follower_of};

use super::line::Line;
use bcast_core::Reply;
use bcast_text::input::Fault;
use bcast_text::script::name::{Names, free_name, give_name};
use std::alloc::{AllocError, Allocator};
use topics::{Answer, Request};

/// A follower: its topic's name, and the key of its receiver there.
#[derive(Drop)]
pub struct Follower<A: Allocator> {
    pub topic: String<A>,
    pub key: usize,
}

/// The follower of each name.
pub type Followers<A> = Names<Follower<A>, A>;

/// The request that `line` asks for.
///
/// Takes memory for the name of the topic.
///
/// # Errors
///
/// - `NotACall`: a follower's name must be in use and is not, or must not be and is.
/// - `NoMemory`: there is no memory for the name.
pub fn request_by<A: Allocator + Copy>(
    alloc: A,
    followers: &Followers<A>,
    line: Line<'_>,
) -> Result<Request<u64, A>, Fault>
    requires { IsInForm line }
    ensures request { IfOk result (IsRequest (follower_of followers.now) line.entry) }
    ensures positive { IfOk result OpensPositive }
    ensures refused { result ≡ Err Fault.NotACall
        → IsAboutNobody (follower_of followers.now) line.entry }
    ensures unwritten { result ≢ Err Fault.OutputFailed }
{
    match line {
        Line::Open(topic, capacity) => {
            let name = String::from_str(alloc, topic)?;
            Ok(Request::Open(name, capacity as usize))
        }
        Line::Follow(topic, new) => {
            if followers.contains_key(new) {
                return Err(Fault::NotACall);
            }
            Ok(Request::Follow(String::from_str(alloc, topic)?))
        }
        Line::Publish(topic, msg) => Ok(Request::Publish(String::from_str(alloc, topic)?, msg)),
        Line::Receive(name) => {
            let (topic, key) = known(alloc, followers, name)?;
            Ok(Request::Receive(topic, key))
        }
        Line::Leave(name) => {
            let (topic, key) = known(alloc, followers, name)?;
            Ok(Request::Leave(topic, key))
        }
        Line::Close(topic) => Ok(Request::Close(String::from_str(alloc, topic)?)),
    }
}

/// The topic and the key of the follower with this name.
fn known<A: Allocator + Copy>(
    alloc: A,
    followers: &Followers<A>,
    name: &str,
) -> Result<(String<A>, usize), Fault>
    ensures found { IfOk result (λ found. follower_of followers.now name.now
        ≡ Some (record { topic = string_bytes found.0; key = found.1 })) }
    ensures refused { result ≡ Err Fault.NotACall → follower_of followers.now name.now ≡ None }
    ensures unwritten { result ≢ Err Fault.OutputFailed }
{
    let follower = followers.get(name).ok_or(Fault::NotACall)?;
    let topic = String::from_str(alloc, follower.topic.as_str())?;
    Ok((topic, follower.key))
}

/// Gives a new follower its name, or frees the name of the one that left.
///
/// Takes memory for a new name.
pub fn record<A: Allocator + Copy>(
    alloc: A,
    followers: &mut Followers<A>,
    line: Line<'_>,
    answered: &Answer<u64>,
) -> Result<(), AllocError>
    ensures ok { OnOk result ((name : List ℕ) → follower_of followers.new name
        ≡ names_after (follower_of followers.old) line.entry answered.now name) }
{
    match (line, answered) {
        (Line::Follow(topic, new), Answer::Done(Reply::NewReceiver(Ok(key)))) => {
            name_follower(alloc, followers, new, topic, *key)
        }
        (Line::Leave(name), _) => {
            free_name(followers, name);
            Ok(())
        }
        _ => Ok(()),
    }
}

/// Gives a new name to the follower of this topic with this key.
#[tactic(auto, using(crate::proofs::Lines::map_cond))]
fn name_follower<A: Allocator + Copy>(
    alloc: A,
    followers: &mut Followers<A>,
    new: &str,
    topic: &str,
    key: usize,
) -> Result<(), AllocError>
    ensures ok { OnOk result ((name : List ℕ) → follower_of followers.new name
        ≡ update bytes_eq (follower_of followers.old) new.now
        (Some (record { topic = topic.now; key = key })) name) }
{
    let topic = String::from_str(alloc, topic)?;
    give_name(alloc, followers, new, Follower { topic, key })
}
