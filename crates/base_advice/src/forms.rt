//! The forms of a script's lines, word by word.

use proxy_words::{is_name, long_number, number, signed_long_number};

/// What a word has to be.
#[derive(Clone, Copy, Debug, PartialEq, Eq)]
pub(crate) enum WordKind {
    /// A number of at most nine digits, from the least to the most.
    Number(u32, u32),
    /// A number of at most 18 digits.
    Long,
    /// The same, with or without a `-` before it.
    Signed,
    /// A server's name.
    Name,
    /// `up` or `down`.
    Health,
    /// A number of at most nine digits, or `closed`.
    Intake,
}

/// The words after a keyword: what each has to be, and how many of them are required.
#[derive(Clone, Copy, Debug)]
pub(crate) struct Form {
    pub(crate) keyword: &'static str,
    pub(crate) word_kinds: &'static [WordKind],
    /// The number of words after which the line may end.
    pub(crate) least: usize,
    pub(crate) looks: &'static str,
}

const MOST_NUMBER: u32 = 999_999_999;

const ANY: WordKind = WordKind::Number(0, MOST_NUMBER);

const FROM_ONE: WordKind = WordKind::Number(1, MOST_NUMBER);

const SERVER: [WordKind; 6] = [
    WordKind::Name,
    ANY,
    ANY,
    WordKind::Number(0, 256),
    FROM_ONE,
    FROM_ONE,
];

/// The header lines.
pub(crate) static HEADERS: [Form; 6] = [
    Form {
        keyword: "places",
        word_kinds: &[WordKind::Number(1, 4096)],
        least: 1,
        looks: "places N",
    },
    Form {
        keyword: "log",
        word_kinds: &[WordKind::Number(1, 262_144)],
        least: 1,
        looks: "log N",
    },
    Form {
        keyword: "retries",
        word_kinds: &[ANY],
        least: 1,
        looks: "retries N",
    },
    Form {
        keyword: "redispatch",
        word_kinds: &[],
        least: 0,
        looks: "redispatch",
    },
    Form {
        keyword: "queue-timeout",
        word_kinds: &[ANY],
        least: 1,
        looks: "queue-timeout N",
    },
    Form {
        keyword: "server",
        word_kinds: &SERVER,
        least: 4,
        looks: "server NAME MAXCONN MAXQUEUE WEIGHT [RISE FALL]",
    },
];

/// The events, after their moments.
pub(crate) static EVENTS: [Form; 7] = [
    Form {
        keyword: "arrive",
        word_kinds: &[WordKind::Signed, WordKind::Signed, WordKind::Name],
        least: 2,
        looks: "M arrive CLASS OFFSET [NAME]",
    },
    Form {
        keyword: "done",
        word_kinds: &[WordKind::Long],
        least: 1,
        looks: "M done TICKET",
    },
    Form {
        keyword: "fail",
        word_kinds: &[WordKind::Long],
        least: 1,
        looks: "M fail TICKET",
    },
    Form {
        keyword: "abort",
        word_kinds: &[WordKind::Long],
        least: 1,
        looks: "M abort TICKET",
    },
    Form {
        keyword: "tick",
        word_kinds: &[],
        least: 0,
        looks: "M tick",
    },
    Form {
        keyword: "check",
        word_kinds: &[WordKind::Name, WordKind::Health],
        least: 2,
        looks: "M check NAME up|down",
    },
    Form {
        keyword: "limit",
        word_kinds: &[WordKind::Name, WordKind::Intake],
        least: 2,
        looks: "M limit NAME N|closed",
    },
];

/// The end of a window.
pub(crate) static ROLL: Form = Form {
    keyword: "roll",
    word_kinds: &[],
    least: 0,
    looks: "roll",
};

/// Returns the form with this keyword, among these.
pub(crate) fn form_of(forms: &'static [Form], word: &[u8]) -> Option<&'static Form> {
    forms.iter().find(|form| word == form.keyword.as_bytes())
}

impl WordKind {
    /// Says whether a word may stand here.
    pub(crate) fn takes(self, word: &[u8]) -> bool {
        match self {
            WordKind::Number(least, most) => number(word).is_some_and(|value| least <= value
                && value <= most),
            WordKind::Long => long_number(word).is_some(),
            WordKind::Signed => signed_long_number(word).is_some(),
            WordKind::Name => is_name(word),
            WordKind::Health => word == b"up".as_slice() || word == b"down".as_slice(),
            WordKind::Intake => word == b"closed".as_slice() || number(word).is_some(),
        }
    }

    /// Returns what has to stand here.
    pub(crate) fn wants(self) -> &'static str {
        match self {
            WordKind::Number(1, 4096) => "A number from 1 to 4096 has to stand here.",
            WordKind::Number(1, 262_144) => "A number from 1 to 262144 has to stand here.",
            WordKind::Number(0, 256) => "A weight is a number from 0 to 256.",
            WordKind::Number(1, _) => "A number of 1 to 9 digits above 0 has to stand here.",
            WordKind::Number(_, _) => "A number of 1 to 9 digits has to stand here.",
            WordKind::Long => "A number of 1 to 18 digits has to stand here.",
            WordKind::Signed =>
                "A number of 1 to 18 digits, with a - before it or none, has to stand here.",
            WordKind::Name => "A name is 1 to 32 letters, digits, -, _, . and :.",
            WordKind::Health => "Here stands up or down.",
            WordKind::Intake => "Here stands a number of 1 to 9 digits, or closed.",
        }
    }
}
