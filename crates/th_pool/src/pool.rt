// The constant pool of a class file.
ghost use Rattle.std.specs.Prelude.{◌≡◌, ◌↔◌, ◌+◌, ◌^◌, ◌<◌, ◌≤◌, ◌||◌, [], length, drop, IsOk, IfOk, IfErr, is_some};
ghost use Rattle.std.specs.Option.{option_and_then, option_copied, option_map};
ghost use Rattle.th_syntax.specs.Forms.{Stands, IsFlawed, read};
ghost use Rattle.th_syntax.specs.ClassBytes as file;
ghost use Rattle.th_syntax.specs.PoolChecks as checks;
ghost use Rattle.th_syntax.specs.Flaws.{IsFirst};
ghost use Rattle.th_syntax.specs.declared.tag.TheConstants as tags;
ghost use Rattle.th_pool.specs.Gives.{Answers, IfRefused, end_at};
ghost use Rattle.th_pool.specs.PoolView.{member_view};
ghost use Rattle.th_pool.specs.Members.{texts_member, texts_names};

use crate::check::check_entries;
use crate::entry::Entry;
use crate::lookup::{self, PoolMember};
use crate::place::Place;
use crate::pool_text::{PoolText, texts_of};
use crate::slots::{Slots, pool_slots};
use std::alloc::Global;
use std::marker::Model;
use th_base::Fail;
use th_syntax::laws::class_files::pool_reading;
use th_syntax::{Flaw, tag};

/// The constant pool of a class file, over the file's bytes (Java specification 4.4).
#[derive(Debug, Drop)]
pub struct Pool<'a> {
    // What each index leads to, from index 0 on.
    slots: Slots<'a>,
    // The text that each index leads to, where it leads to a Utf8 entry.
    texts: Vec<Option<PoolText>>,
}

impl<'a> Model for Pool<'a> {
    ghost use Rattle.std.specs.Prelude.{◌≡◌, IsTrue};
    ghost use Rattle.th_pool.specs.PoolView.{slots_view};
    ghost use Rattle.th_pool.specs.Texts.{texts_in};
    ghost use Rattle.th_syntax.specs.ClassBytes as file;
    ghost use Rattle.th_syntax.specs.PoolChecks.{entries_ascend};

    ghost Value = { file.Pool };

    ghost view = { λ p. slots_view p.slots.items };

    ghost invariant = { λ p. IsTrue (entries_ascend 0 (slots_view p.slots.items)) × (p.texts.items ≡ texts_in (slots_view p.slots.items)) };
}

/// The pool whose count stands at an offset of a file, and the offset behind its last entry.
///
/// Refused are a pool whose count is 0, an unknown tag, a Long or Double whose second index isn't
/// below the count (number 4), and an item that goes past the end of the file (number 2): the first
/// of these. Space is taken for entries that lie within the bytes alone, however great the count is:
/// the bytes of each Utf8 entry are copied once, into its `PoolText`.
pub fn read_pool<'a>(
    alloc: Global,
    bytes: &'a [u8],
    at: usize,
) -> Result<(Pool<'a>, usize), Fail<Flaw>>
    requires within { at ≤ length bytes.now }
    requires small { length bytes.now < 2 ^ 32 }
    ensures found { IfOk result (λ x. Stands file.pool at (drop at bytes.now) x.0 x.1 (drop x.1 bytes.now)) }
    ensures flawed { IfRefused result (IsFlawed file.pool at (drop at bytes.now)) }
    ensures exact { Answers (end_at bytes.now) result (read file.pool at (drop at bytes.now)) }
{
    pool_reading();
    let (_, rest) = bytes.split_at(at);
    let place = Place {
        at: at as u32,
        rest,
    };
    let (slots, behind) = pool_slots(alloc, place)?;
    let texts = texts_of(alloc, slots.as_slice())?;
    Ok((Pool { slots, texts }, behind.at as usize))
}

impl Pool<'_> {
    /// Checks that each index of an entry leads to an entry of the right tag (Java specification
    /// 4.4). The first entry for which one doesn't is refused at its tag, with number 4.
    pub fn check(&self) -> Result<(), Flaw>
        ensures sound { IsOk result ↔ (checks.entry_flaws self.now ≡ []) }
        ensures first { IfErr result (IsFirst (checks.entry_flaws self.now)) }
    {
        check_entries(self.slots.as_slice())
    }

    /// The tag of the entry at an index; `None` exactly where there is no entry.
    pub fn tag(&self, index: u16) -> Option<u8>
        ensures { result ≡ checks.tag_at self.now index }
    {
        lookup::tag_at(self.slots.as_slice(), index)
    }

    /// The bytes of a Utf8 entry; `None` exactly where the index leads to no such entry.
    pub fn utf8(&self, index: u16) -> Option<&[u8]>
        ensures value { option_copied result ≡ checks.utf8_of self.now index }
        ensures there { is_some result ≡ checks.has_tag self.now index tags.UTF8 }
    {
        lookup::utf8_of(self.slots.as_slice(), index)
    }

    /// The value of an Integer entry; `None` exactly where the index leads to no such entry.
    pub fn integer(&self, index: u16) -> Option<i32>
        ensures value { result ≡ checks.integer_of self.now index }
        ensures there { is_some result ≡ checks.has_tag self.now index tags.INTEGER }
    {
        lookup::integer_of(self.slots.as_slice(), index)
    }

    /// The value of a Long entry; `None` exactly where the index leads to no such entry.
    pub fn long(&self, index: u16) -> Option<i64>
        ensures value { result ≡ checks.long_of self.now index }
        ensures there { is_some result ≡ checks.has_tag self.now index tags.LONG }
    {
        lookup::long_of(self.slots.as_slice(), index)
    }

    /// The name of a Class entry; `None` exactly where the index leads to no such entry. The pool
    /// has passed `check`.
    pub fn class(&self, index: u16) -> Option<&[u8]>
        requires { checks.entry_flaws self.now ≡ [] }
        ensures value { option_copied result ≡ checks.class_of self.now index }
        ensures there { is_some result ≡ checks.has_tag self.now index tags.CLASS }
    {
        lookup::class_of(self.slots.as_slice(), index)
    }

    /// The text of a String entry; `None` exactly where the index leads to no such entry. The pool
    /// has passed `check`.
    pub fn string(&self, index: u16) -> Option<&[u8]>
        requires { checks.entry_flaws self.now ≡ [] }
        ensures value { option_copied result ≡ checks.string_of self.now index }
        ensures there { is_some result ≡ checks.has_tag self.now index tags.STRING }
    {
        lookup::string_of(self.slots.as_slice(), index)
    }

    /// The tag, the owner, the name and the descriptor of a Fieldref, Methodref or
    /// InterfaceMethodref entry; `None` exactly where the index leads to no such entry. The pool
    /// has passed `check`.
    pub fn member(&self, index: u16) -> Option<(u8, &[u8], &[u8], &[u8])>
        requires { checks.entry_flaws self.now ≡ [] }
        ensures value { member_view result ≡ checks.tagged_member_of self.now index }
        ensures there { is_some result ≡ (checks.has_tag self.now index tags.FIELD || checks.has_tag self.now index tags.METHOD || checks.has_tag self.now index tags.INTERFACE_METHOD) }
    {
        lookup::member_of(self.slots.as_slice(), index)
    }

    /// The text of a Utf8 entry; `None` exactly where the index leads to no such entry.
    pub fn text(&self, index: u16) -> Option<&PoolText>
        ensures { option_copied result ≡ checks.utf8_of self.now index }
    {
        lookup::text_at(self.texts.as_slice(), index)
    }

    /// The name of a Class entry; `None` exactly where the index leads to no such entry, or the entry
    /// to no name.
    pub fn class_text(&self, index: u16) -> Option<&PoolText>
        ensures { option_copied result ≡ checks.class_of self.now index }
    {
        match lookup::entry_of(self.slots.as_slice(), index) {
            Some(Entry::Class(name)) => self.text(name),
            _ => None,
        }
    }

    /// The text of a String entry; `None` exactly where the index leads to no such entry, or the entry
    /// to no text.
    pub fn string_text(&self, index: u16) -> Option<&PoolText>
        ensures { option_copied result ≡ checks.string_of self.now index }
    {
        match lookup::entry_of(self.slots.as_slice(), index) {
            Some(Entry::String(text)) => self.text(text),
            _ => None,
        }
    }

    // The name and the descriptor of a NameAndType entry.
    fn names_texts(&self, index: u16) -> Option<(&PoolText, &PoolText)>
        ensures { texts_names result ≡ option_and_then (checks.names_in self.now) (checks.entry_of self.now index) }
    {
        match lookup::entry_of(self.slots.as_slice(), index) {
            Some(Entry::NameAndType(name, descriptor)) => {
                Some((self.text(name)?, self.text(descriptor)?))
            }
            _ => None,
        }
    }

    // The member of a class that a NameAndType entry names, under the tag of its own entry.
    fn member_by(&self, tag: u8, owner: u16, named: u16) -> Option<PoolMember>
        ensures { texts_member result ≡ option_map (λ m. (tag, m)) (checks.member_by self.now owner named) }
    {
        let owner = self.class_text(owner)?;
        let (name, descriptor) = self.names_texts(named)?;
        Some(PoolMember {
            tag,
            owner,
            name,
            descriptor,
        })
    }

    /// The member that a Fieldref, Methodref or InterfaceMethodref entry leads to; `None` exactly
    /// where the index leads to no such entry, or the entry to no member.
    pub fn member_texts(&self, index: u16) -> Option<PoolMember>
        ensures { texts_member result ≡ checks.tagged_member_of self.now index }
    {
        match lookup::entry_of(self.slots.as_slice(), index) {
            Some(Entry::Field(owner, named)) => self.member_by(tag::FIELD, owner, named),
            Some(Entry::Method(owner, named)) => self.member_by(tag::METHOD, owner, named),
            Some(Entry::InterfaceMethod(owner, named)) => self.member_by(
                tag::INTERFACE_METHOD,
                owner,
                named,
            ),
            _ => None,
        }
    }
}
