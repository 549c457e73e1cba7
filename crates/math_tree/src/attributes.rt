ghost use Rattle.std.specs.Prelude.{◌≡◌, ◌<◌, [], ◌∷◌, ◌++◌, option_map, length, IfOk, OnOk};
ghost use Rattle.std.specs.Cmp.Lexicographic.{slice_cmp};
ghost use Rattle.std.specs.List.Sorted.{IsBinarySearchResult, IsSearchInRange};
ghost use Rattle.std.specs.Ordering.{nat_cmp};
ghost use Rattle.math_tree.specs.Attributes.{IsInOrder, put, truth_of_word, value_of, without};

use fixed_units::{List, Memory, Room, Txt, is_word};
use std::alloc::Global;
use std::cmp::Ordering;
use std::marker::Model;
use std::mem;

/// The attributes of an element: a list that increases by name, with each name once. Those of
/// unknown names are kept.
#[derive(Debug, Drop)]
pub struct Attributes {
    items: List<Attribute>,
}

/// One attribute.
#[derive(Debug, Drop)]
pub struct Attribute {
    pub name: Txt,
    pub value: Txt,
}

impl Attribute {
    /// The attribute of that name and that value.
    pub fn make(alloc: Global, name: &str, value: &str) -> Result<Attribute, Memory>
        ensures { IfOk result (λ made. made ≡ record { name = name.now; value = value.now }) }
    {
        Ok(Attribute {
            name: Txt::make(alloc, name)?,
            value: Txt::make(alloc, value)?,
        })
    }

    /// How its name stands to another in the order of names, which is that of their bytes.
    fn compare(&self, name: &str) -> Ordering
        ensures { result ≡ slice_cmp nat_cmp self.now.name name.now }
    {
        self.name.as_str().cmp(name)
    }
}

impl Model for Attributes {
    ghost use Rattle.std.specs.Prelude.{List as Sequence};
    ghost use Rattle.math_tree.specs.Attributes.{IsInOrder};
    ghost use Rattle.math_tree.specs.declared.attributes.Attribute.{Attribute};

    ghost Value = { Sequence Attribute };

    ghost view = { λ attributes. attributes.items };

    ghost invariant = { λ attributes. IsInOrder attributes.items };
}

impl Attributes {
    /// No attribute. It takes no memory.
    #[tactic(auto, using(crate::proofs::Lists::none_in_order))]
    pub fn make(alloc: Global) -> Attributes
        ensures { result ≡ [] }
    {
        Attributes {
            items: List::make(alloc),
        }
    }

    /// The attributes of a list that stands in order already.
    pub fn of(items: List<Attribute>) -> Attributes
        requires { IsInOrder items }
        ensures { result ≡ items }
    {
        Attributes { items }
    }

    /// The value of the attribute of that name, where there is one.
    pub fn get(&self, name: &str) -> Option<&str>
        ensures { option_map (λ value. value.now) result ≡ value_of name.now self.now }
    {
        let items = self.items.as_slice();
        if items.len() <= FEW {
            return value_of(items, name);
        }
        match self.search(name) {
            Ok(place) => Some(self.items.as_slice()[place].value.as_str()),
            Err(_) => None,
        }
    }

    /// Puts an attribute in its place, instead of the one of its name where there is one, and
    /// answers the value of that one. It takes no memory.
    pub fn put(&mut self, attribute: Attribute, room: Room<Attribute>) -> Option<Txt>
        requires { length self.old < room }
        ensures value { result ≡ value_of attribute.name self.old }
        ensures all { self.new ≡ put attribute self.old }
    {
        match self.search(attribute.name.as_str()) {
            Ok(place) => {
                let former = mem::replace(self.items.at_mut(place), attribute);
                Some(former.value)
            }
            Err(place) => {
                self.items.insert(place, attribute, room);
                None
            }
        }
    }

    /// Takes out the attribute of that name, and answers its value, where there is one.
    pub fn remove(&mut self, name: &str) -> Option<Txt>
        ensures value { result ≡ value_of name.now self.old }
        ensures all { self.new ≡ without name.now self.old }
    {
        match self.search(name) {
            Ok(place) => Some(self.items.remove(place).value),
            Err(_) => None,
        }
    }

    /// Where the attribute of that name is, or where it would go.
    fn search(&self, name: &str) -> Result<usize, usize>
        ensures range { IsSearchInRange result (length self.now) }
        ensures ends { IsBinarySearchResult (λ a. slice_cmp nat_cmp a.name name.now) self.now
            result }
        ensures order { IsInOrder self.now }
    {
        let items = self.items.as_slice();
        items.binary_search_by(|item| item.compare(name))
    }

    /// The attributes in the order of their names.
    pub fn as_slice(&self) -> &[Attribute]
        ensures all { result.now ≡ self.now }
        ensures order { IsInOrder self.now }
    {
        self.items.as_slice()
    }

    /// The same attributes again.
    pub fn copy(&self, alloc: Global) -> Result<Attributes, Memory>
        ensures { IfOk result (λ copied. copied ≡ self.now) }
    {
        let mut items = List::make(alloc);
        for attribute in self.as_slice() {
            let Attribute { name, value } = attribute;
            add(alloc, &mut items, name.as_str(), value.as_str())?;
        }
        Ok(Attributes { items })
    }
}

/// Adds the attribute of that name and that value at the end.
fn add(alloc: Global, items: &mut List<Attribute>, name: &str, value: &str) -> Result<(), Memory>
    ensures { OnOk result
        (items.new ≡ items.old ++ record { name = name.now; value = value.now } ∷ []) }
{
    items.push(Attribute::make(alloc, name, value)?)?;
    Ok(())
}

/// So many attributes are looked at one by one, which is faster than in halves: most names differ
/// in length already.
const FEW: usize = 8;

/// The value of the first of these attributes that has the name.
fn value_of<'a>(items: &'a [Attribute], name: &str) -> Option<&'a str>
    ensures { option_map (λ value. value.now) result ≡ value_of name.now items.now }
{
    for item in items {
        if item.name.as_str() == name {
            return Some(item.value.as_str());
        }
    }
    None
}

/// The truth value that a word stands for, in any case of ASCII letters: what an attribute such as
/// `displaystyle` or `stretchy` says (MathML Core 2.1.2).
#[tactic(auto, unfolding(crate::specs::Attributes::truth_of_word))]
pub fn truth_of_word(value: &str) -> Option<bool>
    ensures { result ≡ truth_of_word value.now }
{
    if is_word(value, "true") {
        Some(true)
    } else if is_word(value, "false") {
        Some(false)
    } else {
        None
    }
}
