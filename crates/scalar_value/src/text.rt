ghost use Rattle.std.specs.Prelude.{◌≡◌, ◌==◌, ◌++◌, [], List, ℕ, IfOk, OnOk, OnErr, true};
ghost use Rattle.std.specs.Ordering.{nat_cmp, as_partial_cmp, on};
ghost use Rattle.std.specs.Cmp.{partial_order_from_own_ties};
ghost use Rattle.std.specs.Cmp.Rules.{comparing, hashing};
ghost use Rattle.std.specs.String.{string_bytes};
ghost use Rattle.std.specs.Cmp.Lexicographic.{slice_cmp, pointwise};
ghost use Rattle.std.specs.Hash as fed;
ghost use Rattle.std.specs.Str.{IsUtf8};
ghost use Rattle.std.proofs.Common.{rules};

use crate::duplicate::Duplicate;
use crate::memory::Mem;
use std::alloc::Global;
use std::cmp::Ordering;
use std::hash::{Hash, Hasher};
use std::marker::Model;

/// A text that owns its bytes. Contracts see it as the list of these bytes, which are UTF-8.
#[derive(Debug, Drop)]
pub struct Text {
    string: String,
}

impl Model for Text {
    ghost use Rattle.std.specs.Prelude.{List, ℕ};
    ghost use Rattle.std.specs.String.{string_bytes};

    ghost Value = { List ℕ };

    ghost view = { λ t. string_bytes t.string };
}

impl Text {
    /// A text with these bytes.
    pub fn of(alloc: Global, s: &str) -> Mem<Text>
        ensures { IfOk result (λ t. t ≡ s.now) }
    {
        Ok(Text {
            string: String::from_str(alloc, s)?,
        })
    }

    /// The text of this string, which is moved.
    pub fn of_string(string: String) -> Text
        ensures { result ≡ string_bytes string }
    {
        Text { string }
    }

    /// A text without bytes, which takes no memory.
    pub fn empty(alloc: Global) -> Text
        ensures { result ≡ [] }
    {
        Text {
            string: String::new(alloc),
        }
    }

    /// The text as Rust's own.
    pub fn as_str(&self) -> &str
        ensures value { result.now ≡ self.now }
        ensures utf8 { IsUtf8 self.now }
    {
        self.string.as_str()
    }

    /// Appends these bytes. After a refusal the text is as before.
    pub fn push_str(&mut self, s: &str) -> Mem<()>
        ensures appended { OnOk result (self.new ≡ self.old ++ s.now) }
        ensures refused { OnErr result (self.new ≡ self.old) }
    {
        self.string.push_str(s)?;
        Ok(())
    }

    /// An equal text.
    pub fn copy(&self) -> Mem<Text>
        ensures { IfOk result (λ t. t ≡ self.now) }
    {
        Text::of(self.alloc(), self.as_str())
    }

    /// The allocator that the text was made with.
    pub fn alloc(&self) -> Global {
        *self.string.allocator()
    }
}

impl Duplicate for Text {
    fn duplicate(&self) -> Mem<Text> {
        self.copy()
    }
}

impl PartialEq for Text {
    ghost eq = { pointwise ◌==◌ };

    ghost laws = { Prim.search (comparing, rules) };

    fn eq(&self, other: &Text) -> bool {
        self.string.as_str() == other.string.as_str()
    }
}

impl Eq for Text {
    ghost laws = { Prim.search (comparing, rules) };
}

impl PartialOrd for Text {
    ghost partial_cmp = { as_partial_cmp (slice_cmp nat_cmp) };

    ghost laws = { partial_order_from_own_ties (Prim.search (comparing, rules)) (Prim.search (comparing, rules)) };

    fn partial_cmp(&self, other: &Text) -> Option<Ordering> {
        Some(self.cmp(other))
    }
}

impl Ord for Text {
    ghost cmp = { slice_cmp nat_cmp };

    ghost total = { Prim.search (comparing, rules) };

    ghost matches_partial_cmp = { Prim.search (comparing, rules) };

    ghost matches_eq = { Prim.search (comparing, rules) };

    fn cmp(&self, other: &Text) -> Ordering {
        self.string.as_str().cmp(other.string.as_str())
    }
}

impl Hash for Text {
    ghost hash_input = { fed.str };

    ghost respects_eq = { Prim.search (hashing, rules) };

    fn hash<H: Hasher>(&self, state: &mut H) {
        self.string.as_str().hash(state)
    }
}
