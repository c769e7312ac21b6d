//! Names that all have one hash under the fixed seed, in a hub with that seed and in one with a
//! random seed.
use std::alloc::{AllocError, AllocGlobal, Global};
use std::hash::{BuildHasher, BuildHasherDefault, FoldHasher, RandomState};
use std::process::Abort;
use std::test::Fail;
use std::time::CpuClock;
use topics::{Answer, Hub, Request};

/// The beginning of names of 32 bytes that collide.
///
/// The fold hash takes 16 bytes at a time. The first 16 of these make its state the number that the
/// next 8 spell. So a factor of the last product is 0, and the last 8 bytes of a name don't matter.
const COLLIDING: &str = "topic.aaaaakzyusmej9x47o";

/// It differs from `COLLIDING` in one letter, with which no factor is 0.
const OTHER: &str = "topic.aaaaakzyusmej9x47p";

/// How many topics are opened.
const COUNT: u64 = 2_000;

/// The name of 32 bytes that begins so and ends with the digits of `number`, the last one first.
fn name(alloc: Global, beginning: &str, number: u64) -> Result<String, AllocError> {
    let mut name = String::from_str(alloc, beginning)?;
    let mut rest = number;
    for _ in 0..8 {
        name.push(char::from(b'0' + (rest % 10) as u8))?;
        rest /= 10;
    }
    Ok(name)
}

/// How many different hashes the names that begin so have.
fn hashes<S: BuildHasher>(alloc: Global, seed: &S, beginning: &str) -> Result<usize, AllocError> {
    let mut all = Vec::new(alloc);
    for number in 0..COUNT {
        all.push(seed.hash_one(name(alloc, beginning, number)?))?;
    }
    all.sort()?;
    all.dedup();
    Ok(all.len())
}

/// Opens the topics whose names begin so, and returns the processor time for that in nanoseconds.
fn time_to_open<R, S>(rt: &R, mut hub: Hub<u64, Global, S>, beginning: &str) -> Result<u128, Fail>
where
    R: Abort + AllocGlobal + CpuClock,
    S: BuildHasher + Drop,
{
    let before = rt.thread_cpu_time()?;
    for number in 0..COUNT {
        let opened = hub.ask(Request::Open(name(rt.alloc(), beginning, number)?, 1));
        assert!(rt; opened == Answer::Opened);
    }
    Ok(rt.thread_cpu_time()?.saturating_sub(before).as_nanos())
}

#[test]
fn names_collide_only_under_the_fixed_seed(rt: HostRuntime) -> Result<(), Fail> {
    let fixed = BuildHasherDefault::<FoldHasher>::new();
    let seed = RandomState::new(&rt)?;
    assert!(rt; hashes(rt.alloc(), &fixed, COLLIDING)? == 1);
    assert!(rt; hashes(rt.alloc(), &fixed, OTHER)? == COUNT as usize);
    assert!(rt; hashes(rt.alloc(), &seed, COLLIDING)? == COUNT as usize);
    Ok(())
}

#[test]
fn colliding_names_make_no_seeded_hub_slow(rt: HostRuntime) -> Result<(), Fail> {
    let alloc = rt.alloc();
    let attacked = time_to_open(&rt, Hub::new(alloc), COLLIDING)?;
    let other = time_to_open(&rt, Hub::new(alloc), OTHER)?;
    let seeded = Hub::with_hasher(alloc, RandomState::new(&rt)?);
    let seeded = time_to_open(&rt, seeded, COLLIDING)?;
    let is_faster = seeded.saturating_mul(4) < attacked;
    assert!(rt; is_faster, "{seeded}, attacked {attacked}");
    let is_like_others = seeded < other.saturating_mul(4);
    assert!(rt; is_like_others, "{seeded}, other names {other}");
    Ok(())
}
