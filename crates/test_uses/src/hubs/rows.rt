//! Requests with their answers, made one by one, and again as one list.
use super::asked::{Answered, Row, as_row, list_of, request};
use super::tables::TABLES;
use bcast_core::Reply;
use std::alloc::{AllocError, Global};
use std::process::Abort;
use std::test::Fail;
use topics::{Answer, Hub, run_hub};

/// Whether an answer is the row's. A new follower's key is added to `keys`.
fn is_answer(
    keys: &mut Vec<usize>,
    answer: &Answer<u64>,
    expected: Answered,
) -> Result<bool, AllocError> {
    if let Answer::Done(Reply::NewReceiver(Ok(key))) = answer {
        keys.push(*key)?;
    }
    Ok(as_row(answer) == expected)
}

/// Makes the rows' requests one by one, and returns the keys of the followers.
fn ask_each(rt: &impl Abort, alloc: Global, name: &str, rows: &[Row]) -> Result<Vec<usize>, Fail> {
    let mut hub: Hub<u64> = Hub::new(alloc);
    let mut keys = Vec::new(alloc);
    for (index, (topic, asked, expected)) in rows.iter().enumerate() {
        let answer = hub.ask(request(alloc, keys.as_slice(), topic, *asked)?);
        let is_so = is_answer(&mut keys, &answer, *expected)?;
        assert!(rt; is_so, "{name}: row {index}");
    }
    Ok(keys)
}

/// Makes the rows' requests as one list, with the keys that the followers got one by one.
fn ask_all(
    rt: &impl Abort,
    alloc: Global,
    name: &str,
    rows: &[Row],
    keys: &[usize],
) -> Result<(), Fail> {
    let Ok((_, answers)) = run_hub(alloc, list_of(alloc, keys, rows)?) else {
        return Err(Fail::from("the list was refused"));
    };
    let mut again = Vec::new(alloc);
    let is_whole = answers.len() == rows.len();
    assert!(rt; is_whole, "{name}: as many answers as rows");
    for (index, (answer, (_, _, expected))) in answers.iter().zip(rows).enumerate() {
        let is_so = is_answer(&mut again, answer, *expected)?;
        assert!(rt; is_so, "{name}: row {index} of the list");
    }
    assert!(rt; again.as_slice() == keys, "{name}: the same keys");
    Ok(())
}

#[test]
fn topics_answer_as_the_rows_say(rt: HostRuntime) -> Result<(), Fail> {
    for (name, rows) in TABLES {
        let keys = ask_each(&rt, rt.alloc(), name, rows)?;
        ask_all(&rt, rt.alloc(), name, rows, keys.as_slice())?;
    }
    Ok(())
}
