//! Sessions with no bitrate, and what they answer.

/// What is compared of a session.
#[derive(Clone, Copy)]
pub enum Told {
    /// The replies to receives: a packet's number of bytes, or 0 for more data needed, 1 for encoded, 2 for the end.
    Replies,
    /// The packets' quantiser indices.
    Indices,
    /// The positions that the detector is asked of, each with the last key and the number of frames.
    Questions,
    /// Whether each position from 1 on is a key.
    Keys,
}

/// What is sent to a session, and what it answers.
pub struct Row {
    /// The row's name.
    pub name: &'static str,
    /// The greatest key interval.
    pub interval: u64,
    /// The coded frames of the lookahead.
    pub rdo: usize,
    /// Whether the session has a low latency, and its detector is fast.
    pub low_latency: bool,
    /// The positions where scenes begin.
    pub cuts: [u64; 2],
    /// The frame that is sent as a key; 0: none.
    pub forced: u64,
    /// In each round so many sends and then so many receives; a flush follows.
    pub rounds: &'static [(u64, u64)],
    /// The receives behind the flush.
    pub receives: u64,
    /// What is wanted, as text.
    pub wanted: &'static [(Told, &'static str)],
}

/// The rows.
pub const ROWS: [Row; 15] = [
    Row {
        name: "nothing sent",
        interval: 100,
        rdo: 1,
        low_latency: false,
        cuts: [0, 0],
        forced: 0,
        rounds: &[],
        receives: 1,
        wanted: &[(Told::Replies, "2")],
    },
    Row {
        name: "ten frames behind the flush",
        interval: 5,
        rdo: 1,
        low_latency: false,
        cuts: [0, 0],
        forced: 0,
        rounds: &[(10, 0)],
        receives: 15,
        wanted: &[(Told::Replies, "102 1 1 62 5 22 5 102 1 1 62 5 22 5 2")],
    },
    Row {
        name: "a lookahead of 8 coded frames",
        interval: 100,
        rdo: 8,
        low_latency: false,
        cuts: [0, 0],
        forced: 0,
        rounds: &[(14, 1), (1, 2)],
        receives: 1,
        wanted: &[(Told::Replies, "0 102 0 1")],
    },
    Row {
        name: "a lookahead longer than the session",
        interval: 100,
        rdo: 100,
        low_latency: false,
        cuts: [0, 0],
        forced: 0,
        rounds: &[(12, 2)],
        receives: 3,
        wanted: &[(Told::Replies, "0 0 102 1 1")],
    },
    Row {
        name: "a receive behind each send of a key",
        interval: 1,
        rdo: 1,
        low_latency: false,
        cuts: [0, 0],
        forced: 0,
        rounds: &[(1, 1); 14],
        receives: 11,
        wanted: &[(
            Told::Replies,
            "0 0 0 0 0 0 0 0 0 0 102 102 102 102 102 102 102 102 102 102 102 102 102 102 2",
        )],
    },
    Row {
        name: "a receive behind each send of a pair",
        interval: 2,
        rdo: 1,
        low_latency: false,
        cuts: [0, 0],
        forced: 0,
        rounds: &[(1, 1); 16],
        receives: 14,
        wanted: &[(
            Told::Replies,
            "0 0 0 0 0 0 0 0 0 0 102 0 0 0 22 102 22 102 22 102 22 102 22 102 22 102 22 102 22 2",
        )],
    },
    Row {
        name: "of 11 frames position 4 is decided",
        interval: 100,
        rdo: 1,
        low_latency: false,
        cuts: [0, 0],
        forced: 4,
        rounds: &[(11, 5)],
        receives: 13,
        wanted: &[(
            Told::Replies,
            "102 1 42 0 0 5 22 102 1 1 62 5 22 5 1 42 5 2",
        )],
    },
    Row {
        name: "of 11 frames position 5 isn't decided",
        interval: 100,
        rdo: 1,
        low_latency: false,
        cuts: [0, 0],
        forced: 5,
        rounds: &[(11, 5)],
        receives: 12,
        wanted: &[(Told::Replies, "102 1 1 62 0 5 22 5 102 1 1 62 5 22 5 22 2")],
    },
    Row {
        name: "depth 0 waits for the fifth frame",
        interval: 240,
        rdo: 1,
        low_latency: true,
        cuts: [0, 0],
        forced: 0,
        rounds: &[(4, 1), (1, 1)],
        receives: 0,
        wanted: &[(Told::Replies, "0 102")],
    },
    Row {
        name: "a value comes back with a frame sent as a key",
        interval: 5,
        rdo: 10,
        low_latency: false,
        cuts: [0, 0],
        forced: 3,
        rounds: &[(5, 0)],
        receives: 7,
        wanted: &[(Told::Replies, "102 1 42 5 102 22 2")],
    },
    Row {
        name: "positions 1 to 3 are decided in the sends of frames 7 to 9, 3 being sent as a key; the flush decides the others",
        interval: 100,
        rdo: 1,
        low_latency: false,
        cuts: [2, 7],
        forced: 3,
        rounds: &[(8, 1), (1, 1), (1, 1)],
        receives: 2,
        wanted: &[(
            Told::Questions,
            "1/0/8 2/0/8 4/3/7 5/3/6 6/3/5 7/3/4 8/7/3 9/7/2",
        )],
    },
    Row {
        name: "a GOP that the interval begins is no decided key; at depth 0 three frames are kept behind a position",
        interval: 2,
        rdo: 1,
        low_latency: true,
        cuts: [4, 4],
        forced: 0,
        rounds: &[(6, 1)],
        receives: 2,
        wanted: &[(Told::Questions, "1/0/5 2/0/5 3/0/4 4/0/3 5/4/2")],
    },
    Row {
        name: "one frame is decided without a question",
        interval: 100,
        rdo: 1,
        low_latency: false,
        cuts: [1, 1],
        forced: 0,
        rounds: &[(1, 0)],
        receives: 2,
        wanted: &[(Told::Questions, "")],
    },
    Row {
        name: "a scene begins a GOP",
        interval: 100,
        rdo: 1,
        low_latency: false,
        cuts: [3, 0],
        forced: 0,
        rounds: &[(5, 0)],
        receives: 6,
        wanted: &[
            (Told::Replies, "102 1 42 5 102 22"),
            (Told::Keys, "false false true false"),
        ],
    },
    Row {
        name: "quantisers without a bitrate",
        interval: 240,
        rdo: 1,
        low_latency: false,
        cuts: [0, 0],
        forced: 0,
        rounds: &[(5, 0)],
        receives: 7,
        wanted: &[(Told::Indices, "76 196 148 196 111")],
    },
];
