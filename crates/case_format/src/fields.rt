ghost use Rattle.std.specs.Prelude.{◌≤ℤ◌, IfOk};
ghost use Rattle.fixed_units.specs.Boxes.{IsStored};

use crate::boxes::{box_of, number_of};
use crate::fault::Fault;
use fixed_units::{MathBox, fits};
use serde_json::{Map, Value};

/// The members of a case's value.
#[derive(Clone, Copy)]
pub struct Fields<'a> {
    members: &'a Map<String, Value>,
}

impl<'a> Fields<'a> {
    /// The members of an object that has no keys but these.
    pub fn of_value(value: &'a Value, keys: &[&'static str]) -> Result<Fields<'a>, Fault> {
        let members = value.as_object().ok_or(Fault::WrongValue)?;
        for key in members.keys() {
            if !is_among(keys, key.as_str()) {
                return Err(Fault::UnknownKey);
            }
        }
        Ok(Fields { members })
    }

    /// Whether a key has a value.
    pub fn has(self, key: &'static str) -> bool {
        self.get(key).is_some()
    }

    /// The value of a key, where there is one.
    fn get(self, key: &'static str) -> Option<&'a Value> {
        self.members.get(key)
    }

    /// The value of a key.
    pub fn value(self, key: &'static str) -> Result<&'a Value, Fault> {
        self.get(key).ok_or(Fault::missing_key(key))
    }

    /// The text of a key.
    pub fn text(self, key: &'static str) -> Result<&'a str, Fault> {
        self.value(key)?.as_str().ok_or(Fault::wrong_type(key))
    }

    /// The whole number of a key.
    pub fn number(self, key: &'static str) -> Result<i64, Fault> {
        number_of(self.value(key)?).ok_or(Fault::wrong_type(key))
    }

    /// The whole number of a key, which has to lie from one to another.
    pub fn within(self, key: &'static str, low: i64, high: i64) -> Result<i64, Fault>
        ensures { IfOk result (λ number. (low ≤ℤ number) × (number ≤ℤ high)) }
    {
        let number = self.number(key)?;
        if low <= number && number <= high {
            Ok(number)
        } else {
            Err(Fault::out_of_range(key))
        }
    }

    /// The box of a key, seven whole numbers that can be stored.
    pub fn stored_box(self, key: &'static str) -> Result<MathBox, Fault>
        ensures { IfOk result (λ frame. IsStored frame) }
    {
        let frame = box_of(self.value(key)?).ok_or(Fault::wrong_type(key))?;
        if fits(&frame) {
            Ok(frame)
        } else {
            Err(Fault::out_of_range(key))
        }
    }

    /// The whole number of a key, which isn't negative.
    pub fn count(self, key: &'static str) -> Result<u64, Fault> {
        count_in(key, self.value(key)?)
    }

    /// The truth value of a key.
    pub fn flag(self, key: &'static str) -> Result<bool, Fault> {
        self.value(key)?.as_bool().ok_or(Fault::wrong_type(key))
    }

    /// The truth value of a key, `false` where it is left out.
    pub fn flag_or_false(self, key: &'static str) -> Result<bool, Fault> {
        match self.get(key) {
            Some(value) => value.as_bool().ok_or(Fault::wrong_type(key)),
            None => Ok(false),
        }
    }

    /// The items of a key.
    pub fn items(self, key: &'static str) -> Result<&'a [Value], Fault> {
        items_of(key, self.value(key)?)
    }

    /// The items of a key, none where it is left out.
    pub fn items_or_none(self, key: &'static str) -> Result<&'a [Value], Fault> {
        match self.get(key) {
            Some(value) => items_of(key, value),
            None => Ok(&[]),
        }
    }
}

fn is_among(keys: &[&'static str], name: &str) -> bool {
    for key in keys {
        if *key == name {
            return true;
        }
    }
    false
}

fn items_of<'a>(key: &'static str, value: &'a Value) -> Result<&'a [Value], Fault> {
    let items = value.as_array().ok_or(Fault::wrong_type(key))?;
    Ok(items.as_slice())
}

/// The text that an item of a key is.
pub fn text_in<'a>(key: &'static str, item: &'a Value) -> Result<&'a str, Fault> {
    item.as_str().ok_or(Fault::wrong_type(key))
}

/// The count that an item of a key is.
pub fn count_in(key: &'static str, item: &Value) -> Result<u64, Fault> {
    item.as_u64().ok_or(Fault::wrong_type(key))
}
