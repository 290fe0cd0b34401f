// The words that lines begin with.
ghost use Rattle.std.specs.Prelude.{◌≡◌, MatchOption, ◌≢◌};
ghost use Rattle.request_lines.specs.declared.word.Word.{Word as a_word};
ghost use Rattle.request_lines.specs.Words.{word_text};

#[derive(Clone, Copy, PartialEq, Eq, Debug)]
pub enum Word {
    Graph,
    And,
    Or,
    Implies,
    Equiv,
    Xor,
    Read,
    Evaluate,
    Compare,
    Table,
    Write,
    Pairs,
}

impl Word {
    const ALL: [Word; 12] = [
        Word::Graph,
        Word::And,
        Word::Or,
        Word::Implies,
        Word::Equiv,
        Word::Xor,
        Word::Read,
        Word::Evaluate,
        Word::Compare,
        Word::Table,
        Word::Write,
        Word::Pairs,
    ];

    pub fn text(self) -> &'static [u8]
        ensures text { result.now ≡ word_text self }
    {
        match self {
            Word::Graph => b"graph",
            Word::And => b"and",
            Word::Or => b"or",
            Word::Implies => b"implies",
            Word::Equiv => b"equiv",
            Word::Xor => b"xor",
            Word::Read => b"read",
            Word::Evaluate => b"evaluate",
            Word::Compare => b"compare",
            Word::Table => b"table",
            Word::Write => b"write",
            Word::Pairs => b"pairs",
        }
    }

    // The word that these bytes are.
    pub fn of(bytes: &[u8]) -> Option<Word>
        ensures answer { MatchOption result ((w : a_word) → bytes.now ≢ word_text w) (λ w. bytes.now ≡ word_text w) }
    {
        for word in Word::ALL {
            if word.text() == bytes {
                return Some(word);
            }
        }
        None
    }
}
