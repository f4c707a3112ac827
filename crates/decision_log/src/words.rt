//! The words of a line.

ghost use Rattle.std.specs.Prelude.{◌≡◌, find};
ghost use Rattle.std.specs.Str.{bytes_eq};
ghost use Rattle.decision_log.specs.Words.{ask_word, ask_words, decision_word, decision_words, why_word, why_words};

/// The word that an ask begins with.
#[derive(Clone, Copy, PartialEq, Eq)]
pub(crate) enum AskWord {
    Open,
    Banner,
    Challenge,
    Reply,
    Abandon,
    Export,
    Import,
    Read,
    Write,
    Grant,
    Close,
    Info,
    Note,
    Finish,
    Bad,
    End,
}

/// The word that a decision begins with.
#[derive(Clone, Copy, PartialEq, Eq)]
pub(crate) enum DecisionWord {
    Permit,
    Deny,
}

/// The word after `end`.
#[derive(Clone, Copy, PartialEq, Eq)]
pub(crate) enum WhyWord {
    Finished,
    ChildEnded,
    Truncated,
    BadFrame,
    Violation,
    LinkFault,
    KeeperFault,
    LogLost,
}

impl AskWord {
    /// All of them, in the order of the table.
    #[tactic(auto, unfolding(crate::specs::Words::ask_words))]
    fn all() -> [AskWord; 16]
        ensures { result ≡ ask_words }
    {
        [
            AskWord::Open,
            AskWord::Banner,
            AskWord::Challenge,
            AskWord::Reply,
            AskWord::Abandon,
            AskWord::Export,
            AskWord::Import,
            AskWord::Read,
            AskWord::Write,
            AskWord::Grant,
            AskWord::Close,
            AskWord::Info,
            AskWord::Note,
            AskWord::Finish,
            AskWord::Bad,
            AskWord::End,
        ]
    }

    /// The word as it is spelled.
    #[tactic(auto, unfolding(crate::specs::Words::ask_word))]
    fn text(self) -> &'static [u8]
        ensures { result.now ≡ ask_word self }
    {
        match self {
            AskWord::Open => b"open",
            AskWord::Banner => b"banner",
            AskWord::Challenge => b"challenge",
            AskWord::Reply => b"reply",
            AskWord::Abandon => b"abandon",
            AskWord::Export => b"export",
            AskWord::Import => b"import",
            AskWord::Read => b"read",
            AskWord::Write => b"write",
            AskWord::Grant => b"grant",
            AskWord::Close => b"close",
            AskWord::Info => b"info",
            AskWord::Note => b"note",
            AskWord::Finish => b"finish",
            AskWord::Bad => b"bad",
            AskWord::End => b"end",
        }
    }

    /// Whether the bytes spell the word.
    fn is(self, bytes: &[u8]) -> bool
        ensures { result ≡ bytes_eq (ask_word self) bytes.now }
    {
        self.text() == bytes
    }

    /// The word of these bytes.
    pub(crate) fn of(bytes: &[u8]) -> Option<AskWord>
        ensures { result ≡ find (λ w. bytes_eq (ask_word w) bytes.now) ask_words }
    {
        AskWord::among(&AskWord::all(), bytes)
    }

    /// The first of the words that the bytes spell.
    fn among(words: &[AskWord], bytes: &[u8]) -> Option<AskWord>
        ensures { result ≡ find (λ w. bytes_eq (ask_word w) bytes.now) words.now }
    {
        for word in words {
            if word.is(bytes) {
                return Some(*word);
            }
        }
        None
    }
}

impl DecisionWord {
    /// All of them, in the order of the table.
    #[tactic(auto, unfolding(crate::specs::Words::decision_words))]
    fn all() -> [DecisionWord; 2]
        ensures { result ≡ decision_words }
    {
        [DecisionWord::Permit, DecisionWord::Deny]
    }

    /// The word as it is spelled.
    #[tactic(auto, unfolding(crate::specs::Words::decision_word))]
    fn text(self) -> &'static [u8]
        ensures { result.now ≡ decision_word self }
    {
        match self {
            DecisionWord::Permit => b"permit",
            DecisionWord::Deny => b"deny",
        }
    }

    /// Whether the bytes spell the word.
    fn is(self, bytes: &[u8]) -> bool
        ensures { result ≡ bytes_eq (decision_word self) bytes.now }
    {
        self.text() == bytes
    }

    /// The word of these bytes.
    pub(crate) fn of(bytes: &[u8]) -> Option<DecisionWord>
        ensures { result ≡ find (λ w. bytes_eq (decision_word w) bytes.now) decision_words }
    {
        DecisionWord::among(&DecisionWord::all(), bytes)
    }

    /// The first of the words that the bytes spell.
    fn among(words: &[DecisionWord], bytes: &[u8]) -> Option<DecisionWord>
        ensures { result ≡ find (λ w. bytes_eq (decision_word w) bytes.now) words.now }
    {
        for word in words {
            if word.is(bytes) {
                return Some(*word);
            }
        }
        None
    }
}

impl WhyWord {
    /// All of them, in the order of the table.
    #[tactic(auto, unfolding(crate::specs::Words::why_words))]
    fn all() -> [WhyWord; 8]
        ensures { result ≡ why_words }
    {
        [
            WhyWord::Finished,
            WhyWord::ChildEnded,
            WhyWord::Truncated,
            WhyWord::BadFrame,
            WhyWord::Violation,
            WhyWord::LinkFault,
            WhyWord::KeeperFault,
            WhyWord::LogLost,
        ]
    }

    /// The word as it is spelled.
    #[tactic(auto, unfolding(crate::specs::Words::why_word))]
    fn text(self) -> &'static [u8]
        ensures { result.now ≡ why_word self }
    {
        match self {
            WhyWord::Finished => b"finished",
            WhyWord::ChildEnded => b"child-ended",
            WhyWord::Truncated => b"truncated",
            WhyWord::BadFrame => b"bad-frame",
            WhyWord::Violation => b"violation",
            WhyWord::LinkFault => b"link-fault",
            WhyWord::KeeperFault => b"keeper-fault",
            WhyWord::LogLost => b"log-lost",
        }
    }

    /// Whether the bytes spell the word.
    fn is(self, bytes: &[u8]) -> bool
        ensures { result ≡ bytes_eq (why_word self) bytes.now }
    {
        self.text() == bytes
    }

    /// The word of these bytes.
    pub(crate) fn of(bytes: &[u8]) -> Option<WhyWord>
        ensures { result ≡ find (λ w. bytes_eq (why_word w) bytes.now) why_words }
    {
        WhyWord::among(&WhyWord::all(), bytes)
    }

    /// The first of the words that the bytes spell.
    fn among(words: &[WhyWord], bytes: &[u8]) -> Option<WhyWord>
        ensures { result ≡ find (λ w. bytes_eq (why_word w) bytes.now) words.now }
    {
        for word in words {
            if word.is(bytes) {
                return Some(*word);
            }
        }
        None
    }
}
