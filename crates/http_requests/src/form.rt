//! The parameters of a form.
ghost use Rattle.std.specs.Prelude.{◌≡◌, map, option_map, is_some, IfOk};
ghost use Rattle.http_requests.specs.Forms.{all_values, bytes_of, first_value, form_pairs};

use form_urlencoded::parse;
use std::alloc::{AllocError, Global};
use std::marker::Model;

/// The parameters of a form, decoded and in order. Contracts see it as the list of their names and values.
///
/// `+` is a space, a `%` with two hexadecimal digits is the byte that they say, and bytes that are no UTF-8 become
/// U+FFFD. A parameter without `=` has an empty value.
#[derive(Drop)]
pub struct Form {
    pairs: Vec<(String, String)>,
}

impl Model for Form {
    ghost use Rattle.std.specs.Prelude.{List, map};
    ghost use Rattle.http_requests.specs.Forms.{Parameter, bytes_of};

    ghost Value = { List Parameter };

    ghost view = { λ form. map bytes_of form.pairs.items };
}

impl Form {
    /// The form that these bytes are. It fails only for want of memory.
    pub fn read(alloc: Global, bytes: &[u8]) -> Result<Form, AllocError>
        ensures { IfOk result (λ form. form ≡ form_pairs bytes.now) }
    {
        let mut pairs = Vec::new(alloc);
        for pair in parse(alloc, bytes).into_owned() {
            pairs.push(pair?)?;
        }
        Ok(Form { pairs })
    }

    /// The value of the first parameter of this name. Later ones of the name don't count.
    pub fn first(&self, name: &str) -> Option<&str>
        ensures { option_map (λ value. value.now) result ≡ first_value name.now self.now }
    {
        first_in(self.pairs.as_slice(), name.as_bytes())
    }

    /// The values of all parameters of this name, in order. It fails only for want of memory.
    pub fn all<'f>(&'f self, alloc: Global, name: &str) -> Result<Vec<&'f str>, AllocError>
        ensures { IfOk result (λ values. map (λ value. value.now) values.items ≡ all_values name.now self.now) }
    {
        all_in(alloc, self.pairs.as_slice(), name.as_bytes())
    }

    /// Whether a parameter has this name.
    pub fn has(&self, name: &str) -> bool
        ensures { result ≡ is_some (first_value name.now self.now) }
    {
        self.first(name).is_some()
    }
}

fn first_in<'p>(pairs: &'p [(String, String)], name: &[u8]) -> Option<&'p str>
    ensures { option_map (λ value. value.now) result ≡ first_value name.now (map bytes_of pairs.now) }
{
    for (found, value) in pairs {
        if found.as_bytes() == name {
            return Some(value.as_str());
        }
    }
    None
}

fn all_in<'p>(
    alloc: Global,
    pairs: &'p [(String, String)],
    name: &[u8],
) -> Result<Vec<&'p str>, AllocError>
    ensures { IfOk result (λ values. map (λ value. value.now) values.items ≡ all_values name.now (map bytes_of pairs.now)) }
{
    let mut values = Vec::new(alloc);
    for (key, value) in pairs {
        if key.as_bytes() == name {
            values.push(value.as_str())?;
        }
    }
    Ok(values)
}
