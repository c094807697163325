ghost use Rattle.std.specs.Prelude.{◌≡◌};
ghost use Rattle.dx_print.specs.Words.{word_text, word_named};

/// The event that a line asks for and that its reply answers ("Events" in docs/FORMAT.md).
#[derive(Clone, Copy, Debug, PartialEq, Eq)]
pub enum Word {
    /// The first line.
    Genesis,
    /// A short-term order is placed.
    Place,
    /// A short-term order is cancelled.
    Cancel,
    /// All resting short-term orders of an account are cancelled.
    CancelAll,
    /// A message is added to a node's pool.
    Message,
    /// A node is told a market's price.
    Feed,
    /// A node liquidates and deleverages an account.
    Sweep,
    /// A node proposes a block.
    Propose,
    /// A block is handed in.
    Block,
    /// A slot's block is shown.
    Show,
    /// A block is tested.
    Check,
    /// A block is committed.
    Commit,
    /// A committed balance is told.
    Balance,
    /// A balance after the node's queue is told.
    Spec,
    /// It is told how much of an order is filled.
    Filled,
    /// The best prices of a node's book are told.
    Best,
    /// The sums of the committed state are told.
    Audit,
    /// The digest of the committed state is told.
    Digest,
    /// A node is started from its kept blocks.
    Restart,
    /// It is told for which trigger an order waits.
    Waits,
    /// The committed state is kept as a snapshot.
    Snap,
    /// A node is started from a snapshot and the later blocks.
    Resume,
}

/// All words.
const WORDS: [Word; 22] = [
    Word::Genesis,
    Word::Place,
    Word::Cancel,
    Word::CancelAll,
    Word::Message,
    Word::Feed,
    Word::Sweep,
    Word::Propose,
    Word::Block,
    Word::Show,
    Word::Check,
    Word::Commit,
    Word::Balance,
    Word::Spec,
    Word::Filled,
    Word::Best,
    Word::Audit,
    Word::Digest,
    Word::Restart,
    Word::Waits,
    Word::Snap,
    Word::Resume,
];

impl Word {
    /// The text of the word, in a line and in its reply.
    pub fn text(self) -> &'static str
        ensures { result.now ≡ word_text self }
    {
        match self {
            Word::Genesis => "genesis",
            Word::Place => "place",
            Word::Cancel => "cancel",
            Word::CancelAll => "cancelall",
            Word::Message => "message",
            Word::Feed => "feed",
            Word::Sweep => "sweep",
            Word::Propose => "propose",
            Word::Block => "block",
            Word::Show => "show",
            Word::Check => "check",
            Word::Commit => "commit",
            Word::Balance => "balance",
            Word::Spec => "spec",
            Word::Filled => "filled",
            Word::Best => "best",
            Word::Audit => "audit",
            Word::Digest => "digest",
            Word::Restart => "restart",
            Word::Waits => "waits",
            Word::Snap => "snap",
            Word::Resume => "resume",
        }
    }

    /// The word of a text; `None` where the text is that of no word.
    #[tactic(auto, unfolding(crate::specs::Words::word_named))]
    pub fn named(text: &str) -> Option<Word>
        ensures { result ≡ word_named text.now }
    {
        WORDS.iter().copied().find(|word| text == word.text())
    }
}
