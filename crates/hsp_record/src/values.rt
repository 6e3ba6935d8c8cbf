// Handle values and lists of them, lent from the octets and seen as their fields.

ghost use Rattle.std.specs.Prelude.{◌≡◌, ◌==◌, ◌↔◌, [], length, IsTrue};
ghost use Rattle.std.specs.List.{find};

use std::marker::Model;

/// The references of a value: their number, and the octets that spell them.
#[derive(Drop)]
pub(crate) struct References<'a> {
    pub(crate) count: u32,
    pub(crate) octets: &'a [u8],
}

impl<'a> Model for References<'a> {
    ghost use Rattle.std.specs.Prelude.{List};
    ghost use Rattle.hsp_record.specs.Values.{ValueReference};
    ghost use Rattle.hsp_record.specs.Reading.{references_in, AreReferences};

    ghost Value = { List ValueReference };

    ghost view = { λ r. references_in r.count r.octets.now };

    ghost invariant = { λ r. AreReferences r.count r.octets.now };
}

impl<'a> References<'a> {
    // The same references.
    fn lent(&self) -> References<'a>
        ensures { result ≡ self.now }
    {
        References {
            count: self.count,
            octets: self.octets,
        }
    }
}

/// A handle value (RFC 3651, section 3.1). Its type and data are lent from the octets that it was read from.
#[derive(Drop)]
pub struct Value<'a> {
    pub(crate) index: u32,
    pub(crate) type_octets: &'a [u8],
    pub(crate) octets: &'a [u8],
    pub(crate) permission: u8,
    pub(crate) ttl_kind: u8,
    pub(crate) ttl: u32,
    pub(crate) timestamp: u64,
    pub(crate) references: References<'a>,
}

impl<'a> Model for Value<'a> {
    ghost use Rattle.hsp_record.specs.Values.{HandleValue};

    ghost Value = { HandleValue };

    ghost view = { λ v. record {
      index = v.index;
      type_octets = v.type_octets.now;
      octets = v.octets.now;
      permission = v.permission;
      ttl_kind = v.ttl_kind;
      ttl = v.ttl;
      timestamp = v.timestamp;
      references = v.references;
    } };
}

impl<'a> Value<'a> {
    /// The value's index, which no other value of its list has.
    pub fn index(&self) -> u32
        ensures { result ≡ self.now.index }
    {
        self.index
    }

    /// The value's type, a slice of the octets that the list was read from.
    pub fn type_octets(&self) -> &'a [u8]
        ensures { result.now ≡ self.now.type_octets }
    {
        self.type_octets
    }

    /// The value's data, a slice of the octets that the list was read from.
    pub fn octets(&self) -> &'a [u8]
        ensures { result.now ≡ self.now.octets }
    {
        self.octets
    }

    // The same value.
    fn lent(&self) -> Value<'a>
        ensures { result ≡ self.now }
    {
        Value {
            index: self.index,
            type_octets: self.type_octets,
            octets: self.octets,
            permission: self.permission,
            ttl_kind: self.ttl_kind,
            ttl: self.ttl,
            timestamp: self.timestamp,
            references: self.references.lent(),
        }
    }
}

/// A list of handle values of distinct indices.
#[derive(Drop)]
pub struct ValueList<'a> {
    pub(crate) values: Vec<Value<'a>>,
}

impl<'a> Model for ValueList<'a> {
    ghost use Rattle.std.specs.Prelude.{List};
    ghost use Rattle.hsp_record.specs.Values.{HandleValue, IsValueList};

    ghost Value = { List HandleValue };

    ghost view = { λ list. list.values.items };

    ghost invariant = { λ list. IsValueList list.values.items };
}

impl<'a> ValueList<'a> {
    /// How many values the list has.
    pub fn len(&self) -> usize
        ensures { result ≡ length self.now }
    {
        self.values.len()
    }

    /// Whether the list has no value.
    pub fn is_empty(&self) -> bool
        ensures { IsTrue result ↔ (self.now ≡ []) }
    {
        self.values.is_empty()
    }

    /// The value with this index, or None where the list has no such value.
    pub fn find(&self, index: u32) -> Option<Value<'a>>
        ensures { result ≡ find (λ v. v.index == index) self.now }
    {
        for value in &self.values {
            if value.index == index {
                return Some(value.lent());
            }
        }
        None
    }
}
