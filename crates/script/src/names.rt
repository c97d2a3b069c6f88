// The names of the commands.
ghost use Rattle.std.specs.Prelude.{◌≡◌};
ghost use Rattle.script.specs.Names.{same_bytes, keyword_of};

use crate::Keyword;

pub fn same(a: &[u8], b: &[u8]) -> bool
    ensures { result ≡ same_bytes a.now b.now }
{
    a == b
}

// What changes settings, buffers and state by hand; the calls; the table calls, and what is for people.
static NAMES: [(&[u8], Keyword); 31] = [
    (b"settings", Keyword::Settings),
    (b"heap", Keyword::Heap),
    (b"table", Keyword::Table),
    (b"poke", Keyword::Poke),
    (b"entry", Keyword::Entry),
    (b"state", Keyword::State),
    (b"record", Keyword::Record),
    (b"claims", Keyword::Claims),
    (b"reopen", Keyword::Reopen),
    (b"write", Keyword::Write),
    (b"claim", Keyword::Claim),
    (b"release", Keyword::Release),
    (b"prune", Keyword::Prune),
    (b"read", Keyword::Read),
    (b"through", Keyword::Through),
    (b"plan", Keyword::Plan),
    (b"rewrite", Keyword::Rewrite),
    (b"maintain", Keyword::Maintain),
    (b"counts", Keyword::Counts),
    (b"unsynced", Keyword::Unsynced),
    (b"sync", Keyword::Sync),
    (b"check", Keyword::Check),
    (b"salvage", Keyword::Salvage),
    (b"load", Keyword::Load),
    (b"store", Keyword::Store),
    (b"cas", Keyword::Cas),
    (b"max", Keyword::Max),
    (b"list", Keyword::List),
    (b"dump", Keyword::Dump),
    (b"bytes", Keyword::Bytes),
    (b"help", Keyword::Help),
];

// What a line's first word names; any that is no name: Bad.
pub fn keyword_of(word: &[u8]) -> Keyword
    ensures { result ≡ keyword_of word.now }
{
    for (name, keyword) in &NAMES {
        if same(word, *name) {
            return *keyword;
        }
    }
    Keyword::Bad
}
