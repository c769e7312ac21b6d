//! Tables of requests with their answers.
use super::asked::{Answered, Asked, Row};

/// Each table with its name. A hub begins each without topics.
pub const TABLES: &[(&str, &[Row])] = &[
    (
        "two topics, each a channel of its own",
        &[
            ("a", Asked::Open(1), Answered::Opened),
            ("b", Asked::Open(1), Answered::Opened),
            ("a", Asked::Follow, Answered::Followed),
            ("b", Asked::Follow, Answered::Followed),
            ("a", Asked::Publish(1), Answered::Sent),
            ("b", Asked::Publish(2), Answered::Sent),
            ("a", Asked::Publish(3), Answered::Full(3)),
            ("b", Asked::Receive(1), Answered::Got(2)),
            ("b", Asked::Close, Answered::Closed(true)),
            ("b", Asked::Receive(1), Answered::Ended),
            ("a", Asked::Receive(0), Answered::Got(1)),
            ("a", Asked::Leave(0), Answered::Left),
            ("a", Asked::Publish(4), Answered::Inactive(4)),
            ("c", Asked::Publish(1), Answered::NoTopic),
            ("a", Asked::Open(2), Answered::Exists),
        ],
    ),
    (
        "a message for two followers",
        &[
            ("a", Asked::Open(1), Answered::Opened),
            ("a", Asked::Follow, Answered::Followed),
            ("a", Asked::Follow, Answered::Followed),
            ("a", Asked::Publish(1), Answered::Sent),
            ("a", Asked::Receive(0), Answered::Got(1)),
            ("a", Asked::Receive(1), Answered::Got(1)),
        ],
    ),
    (
        "the example of the documentation",
        &[
            ("news", Asked::Open(4), Answered::Opened),
            ("news", Asked::Follow, Answered::Followed),
            ("news", Asked::Publish(7), Answered::Sent),
            ("news", Asked::Receive(0), Answered::Got(7)),
            ("sport", Asked::Close, Answered::NoTopic),
        ],
    ),
    (
        "a second open keeps the topic",
        &[
            ("a", Asked::Open(1), Answered::Opened),
            ("a", Asked::Follow, Answered::Followed),
            ("a", Asked::Publish(1), Answered::Sent),
            ("a", Asked::Open(1), Answered::Exists),
            ("a", Asked::Receive(0), Answered::Got(1)),
            ("a", Asked::Close, Answered::Closed(true)),
            ("a", Asked::Open(1), Answered::Exists),
            ("a", Asked::Close, Answered::Closed(false)),
        ],
    ),
    (
        "names",
        &[
            ("", Asked::Open(1), Answered::BadName),
            ("A", Asked::Open(1), Answered::BadName),
            ("a b", Asked::Open(1), Answered::BadName),
            ("a-b", Asked::Open(1), Answered::BadName),
            ("é", Asked::Open(1), Answered::BadName),
            ("a\n", Asked::Open(1), Answered::BadName),
            (
                "0123456789.abcdefghijklmnopqrstu",
                Asked::Open(1),
                Answered::Opened,
            ),
            (
                "0123456789.abcdefghijklmnopqrstuv",
                Asked::Open(1),
                Answered::BadName,
            ),
            (".", Asked::Open(1), Answered::Opened),
            ("z", Asked::Open(1), Answered::Opened),
            ("", Asked::Follow, Answered::BadName),
            ("A", Asked::Publish(1), Answered::BadName),
            ("_", Asked::Receive(0), Answered::BadName),
            ("`", Asked::Leave(0), Answered::BadName),
            ("{", Asked::Close, Answered::BadName),
        ],
    ),
    (
        "topics that were not opened",
        &[
            ("a", Asked::Open(1), Answered::Opened),
            ("b", Asked::Follow, Answered::NoTopic),
            ("aa", Asked::Publish(1), Answered::NoTopic),
            ("b", Asked::Receive(0), Answered::NoTopic),
            ("b", Asked::Leave(0), Answered::NoTopic),
            ("b", Asked::Close, Answered::NoTopic),
            ("b", Asked::Open(1), Answered::Opened),
            ("b", Asked::Close, Answered::Closed(true)),
        ],
    ),
];
