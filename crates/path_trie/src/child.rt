//! A name with what stands there.

ghost use Rattle.std.specs.Prelude.{◌≡◌, string_bytes};

use gfs_types::lists::Text;
use std::alloc::{Allocator, Global};
use std::marker::Model;

/// A name, in memory of `B`, and what stands there. Seen as that pair.
#[derive(Drop)]
pub struct Named<'a, V, B: Allocator> {
    name: String<B>,
    value: &'a V,
}

/// Of a directory's children the last part of the path, of all entries the whole path, with what stands there.
pub type Child<'a, V> = Named<'a, V, Global>;

impl<'a, V, B: Allocator> Model for Named<'a, V, B> {
    ghost use Rattle.std.specs.Prelude.{List, ℕ, string_bytes};
    ghost use Rattle.std.specs.Coded.{coded×, coded_list, coded_ℕ};

    ghost Value = { List ℕ × V };

    ghost coded = { coded× (coded_list coded_ℕ) V.code };

    ghost view = { λ c. (string_bytes c.name, c.value.now) };
}

impl<'a, V, B: Allocator> Named<'a, V, B> {
    pub(crate) fn new(name: String<B>, value: &'a V) -> Self
        ensures { result ≡ (string_bytes name, value.now) }
    {
        Named { name, value }
    }

    /// The last part of its path, or the whole path.
    pub fn name(&self) -> &str
        ensures { result.now ≡ self.now.0 }
    {
        self.name.as_str()
    }

    /// What stands there.
    pub fn value(&self) -> &'a V
        ensures { result.now ≡ self.now.1 }
    {
        self.value
    }
}

impl<'a, V> Named<'a, V, Global> {
    /// The same, to be kept.
    pub fn into_name(self) -> Text
        ensures { result ≡ self.entry.0 }
    {
        Text::new(self.name)
    }
}
