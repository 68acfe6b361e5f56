// The fixed byte strings of the texts that are written, put into a lent output.
#![tactic(auto)]

ghost use Rattle.std.specs.Prelude.{◌≡◌, ◌+◌, ◌^◌, ◌≤◌, ◌<◌, length};
ghost use Rattle.printer.specs.Written.{placed};
ghost use Rattle.printer.specs.Puts.{Puts};
ghost use Rattle.words.specs.WordText.{word_text};

use printer::Output;

// An enum and no byte strings: that none is longer than 32 bytes is proved once, and no caller has to say it.
#[derive(Clone, Copy)]
pub enum Word {
    Award,
    Buy,
    Refused,
    Seg,
    Space,
    Without,
    WithoutNone,
    Close,
    CloseLine,
    CloseRow,
    Demand,
    Bid,
    Band,
    None,
    EndLine,
}

impl Word {
    fn bytes(self) -> &'static [u8]
        ensures value { result.now ≡ word_text self }
        ensures upper_bound { length result.now ≤ 32 }
    {
        match self {
            Word::Award => b"(award ",
            Word::Buy => b"(buy ",
            Word::Refused => b"(refused ",
            Word::Seg => b" (seg ",
            Word::Space => b" ",
            Word::Without => b" (without ",
            Word::WithoutNone => b" (without none",
            Word::Close => b")",
            Word::CloseLine => b")\n",
            Word::CloseRow => b"))\n",
            Word::Demand => b"(demand ",
            Word::Bid => b"(bid ",
            Word::Band => b"(band ",
            Word::None => b"none",
            Word::EndLine => b"\n",
        }
    }
}

// A word, where it fits. The place moves past it all the same, and is bounded so that no sum wraps.
pub fn put(out: &mut Output<'_>, word: Word)
    requires { out.old.at < 2 ^ 61 }
    ensures puts { Puts out.old (word_text word) out.new }
    ensures out_after { out.new.bytes.now ≡ placed out.old.bytes.now out.old.at (word_text word) }
    ensures upper_bound { out.new.at ≤ out.old.at + 32 }
{
    out.word(word.bytes());
}
