// The texts of a pool.
ghost use Rattle.std.specs.Prelude.{◌≡◌, IfOk};
ghost use Rattle.std.specs.List.{list_any};
ghost use Rattle.std.specs.Prelude.{◌==◌};
ghost use Rattle.std.specs.Option.{option_map};
ghost use Rattle.std.specs.Str.{byte};
ghost use Rattle.th_syntax.specs.WellFormed as names;
ghost use Rattle.th_syntax.specs.Descriptors.{field_type_of, method_type_of};
ghost use Rattle.th_syntax.specs.CodeBytes.{class_or_array_numbers, is_callable, method_type_numbers, type_numbers};
ghost use Rattle.th_pool.specs.PoolView.{placed_view, slots_view};
ghost use Rattle.th_pool.specs.Texts.{AreFacts, fault_numbers, has_front, slot_text, texts_in};

use crate::entry::{Entry, PlacedEntry};
use crate::names::{is_class_name, is_field_name, is_initialiser, is_method_name};
use crate::parse::{field_fault, method_fault};
use crate::shape::DescriptorFault;
use std::alloc::{AllocError, Global};
use std::marker::Model;
use th_base::Text;

// What a text is as a name and as a descriptor.
#[derive(Clone, Copy, Debug)]
pub(crate) struct TextFacts {
    pub class_name: bool,
    pub field_name: bool,
    pub method_name: bool,
    // The byte `<` stands in it.
    pub angled: bool,
    pub field_fault: Option<DescriptorFault>,
    pub method_fault: Option<DescriptorFault>,
}

/// The text of a Utf8 entry (Java specification 4.4.7). What it may be the name or the descriptor of
/// was found once, when the pool was read, so each answer takes one step and no memory.
#[derive(Debug, Drop)]
pub struct PoolText {
    text: Text,
    facts: TextFacts,
}

impl Model for PoolText {
    ghost use Rattle.std.specs.Prelude.{List, ℕ};
    ghost use Rattle.th_pool.specs.Texts.{AreFacts};

    ghost Value = { List ℕ };

    ghost view = { λ t. t.text };

    ghost invariant = { λ t. AreFacts t.text t.facts };
}

fn is_angled(bytes: &[u8]) -> bool
    ensures { result ≡ list_any (λ b. b == byte "<") bytes.now }
{
    bytes.iter().any(|byte| *byte == b'<')
}

// Whether the bytes begin as an array type's descriptor does.
fn is_array(bytes: &[u8]) -> bool
    ensures { result ≡ has_front (byte "[") bytes.now }
{
    !bytes.is_empty() && bytes[0] == b'['
}

fn facts_of(alloc: Global, text: &Text) -> Result<TextFacts, AllocError>
    ensures { IfOk result (AreFacts text.now) }
{
    let bytes = text.as_bytes();
    Ok(TextFacts {
        class_name: is_class_name(bytes),
        field_name: is_field_name(bytes),
        method_name: is_method_name(bytes),
        angled: is_angled(bytes),
        field_fault: field_fault(bytes),
        method_fault: method_fault(alloc, text)?,
    })
}

impl PoolText {
    // The text of these bytes.
    fn from_slice(alloc: Global, bytes: &[u8]) -> Result<PoolText, AllocError>
        ensures { IfOk result (λ text. text ≡ bytes.now) }
    {
        let text = Text::from_slice(alloc, bytes)?;
        let facts = facts_of(alloc, &text)?;
        Ok(PoolText { text, facts })
    }

    /// The text itself, whose copies share its bytes.
    pub fn text(&self) -> &Text
        ensures { result.now ≡ self.now }
    {
        &self.text
    }

    /// Whether it is the name of a class in internal form (Java specification 4.2.1).
    pub fn is_class_name(&self) -> bool
        ensures { result ≡ names.is_class_name self.now }
    {
        self.facts.class_name
    }

    /// Whether it is the name of a field (Java specification 4.2.2).
    pub fn is_field_name(&self) -> bool
        ensures { result ≡ names.is_field_name self.now }
    {
        self.facts.field_name
    }

    /// Whether it is the name of a method (Java specification 4.2.2).
    pub fn is_method_name(&self) -> bool
        ensures { result ≡ names.is_method_name self.now }
    {
        self.facts.method_name
    }

    /// Whether an instruction may call a method of this name: one without `<`, or `<init>` where the
    /// instruction is `invokespecial` (Java specification 4.9.1).
    pub fn is_callable(&self, special: bool) -> bool
        ensures { result ≡ is_callable special self.now }
    {
        !self.facts.angled || (special && is_initialiser(self.text.as_bytes()))
    }

    /// What is wrong with it as the descriptor of a field (Java specification 4.3.2); `None` exactly
    /// where nothing is.
    pub fn field_fault(&self) -> Option<DescriptorFault>
        ensures { fault_numbers result ≡ type_numbers (field_type_of self.now) }
    {
        self.facts.field_fault
    }

    /// What is wrong with it as the descriptor of a method (Java specification 4.3.3); `None` exactly
    /// where nothing is.
    pub fn method_fault(&self) -> Option<DescriptorFault>
        ensures { fault_numbers result ≡ method_type_numbers (method_type_of self.now) }
    {
        self.facts.method_fault
    }

    /// What is wrong with it as the name of a class or, in its place, the descriptor of an array
    /// (Java specification 4.4.1); `None` exactly where nothing is.
    #[tactic(auto, using(crate::proofs::Faults::class_faults))]
    pub fn class_or_array_fault(&self) -> Option<DescriptorFault>
        ensures { fault_numbers result ≡ class_or_array_numbers self.now }
    {
        if is_array(self.text.as_bytes()) {
            return self.facts.field_fault;
        }
        if self.facts.class_name {
            return None;
        }
        Some(DescriptorFault::Form)
    }
}

// The text of a Utf8 entry.
fn text_in(alloc: Global, slot: Option<PlacedEntry>) -> Result<Option<PoolText>, AllocError>
    ensures { IfOk result (λ text. text ≡ slot_text (option_map placed_view slot.entry)) }
{
    match slot {
        Some(placed) => match placed.entry {
            Entry::Utf8(bytes) => Ok(Some(PoolText::from_slice(alloc, bytes)?)),
            _ => Ok(None),
        },
        None => Ok(None),
    }
}

// The text that each index leads to, where it leads to a Utf8 entry.
pub(crate) fn texts_of(
    alloc: Global,
    slots: &[Option<PlacedEntry>],
) -> Result<Vec<Option<PoolText>>, AllocError>
    ensures { IfOk result (λ texts. texts.items ≡ texts_in (slots_view slots.now)) }
{
    let mut texts = Vec::new(alloc);
    for slot in slots {
        let text = text_in(alloc, *slot)?;
        texts.push(text)?;
    }
    Ok(texts)
}
