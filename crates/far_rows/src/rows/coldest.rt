// The eviction victim among the objects of the rows.
ghost use Rattle.std.specs.Prelude.{◌≡◌, ◌↔◌, None, IfSome, option_map};
ghost use Rattle.far_scopes.specs.Coldest.{coldest as coldest_in};
ghost use Rattle.far_rows.specs.Jobs.{IsEvictable};
ghost use Rattle.far_rows.specs.Coldest.{coldest, coldest_name, numbers_go_first, pins_at};

use super::Rows;
use crate::object::Object;
use far_store::FarTickets;
use far_types::Name;

impl<S: FarTickets> Rows<S> {
    /// Returns the object to evict next, with its name: the coldest object of the kind whose local memory has less space in
    /// proportion to its capacity. If the proportions are equal, that kind is numbers. If that kind has no such object, returns
    /// the coldest object of the second kind. `None` exactly if neither kind has one. Allocates nothing.
    ///
    /// The object is local and has no pin.
    pub fn coldest(&self) -> Option<(Name, Object)>
        ensures coldest { option_map (λ found. found.0) result ≡ coldest self.now }
        ensures evictable { IfSome result
            (λ found. IsEvictable self.now found.0.column found.0.group found.1) }
        ensures unpinned { IfSome result (λ found. pins_at self.now found.1 ≡ 0) }
        ensures none { (result ≡ None)
            ↔ ((coldest_in self.now.number_objects ≡ None)
            × (coldest_in self.now.text_objects ≡ None)) }
    {
        if self.numbers_go_first() {
            match self.coldest_number() {
                Some(found) => Some(found),
                None => self.coldest_text(),
            }
        } else {
            match self.coldest_text() {
                Some(found) => Some(found),
                None => self.coldest_number(),
            }
        }
    }

    // Returns the coldest object of numbers, with its name.
    fn coldest_number(&self) -> Option<(Name, Object)>
        ensures name { option_map (λ found. found.0) result ≡ coldest_name self.now.number_objects }
        ensures evictable { IfSome result
            (λ found. IsEvictable self.now found.0.column found.0.group found.1) }
        ensures unpinned { IfSome result (λ found. pins_at self.now found.1 ≡ 0) }
        ensures none { (result ≡ None) ↔ (coldest_in self.now.number_objects ≡ None) }
    {
        // For the proof: shows `AreRows`, and that a local object is in use.
        let _len = self.len();
        let objects = self.number_objects();
        let _number = objects.number();
        let o = objects.coldest()?;
        Some((objects.name(o), Object::Number(o)))
    }

    // Returns the coldest object of texts, with its name.
    fn coldest_text(&self) -> Option<(Name, Object)>
        ensures name { option_map (λ found. found.0) result ≡ coldest_name self.now.text_objects }
        ensures evictable { IfSome result
            (λ found. IsEvictable self.now found.0.column found.0.group found.1) }
        ensures unpinned { IfSome result (λ found. pins_at self.now found.1 ≡ 0) }
        ensures none { (result ≡ None) ↔ (coldest_in self.now.text_objects ≡ None) }
    {
        let _len = self.len();
        let objects = self.text_objects();
        let _number = objects.number();
        let o = objects.coldest()?;
        Some((objects.name(o), Object::Text(o)))
    }

    // Returns whether the memory of numbers has at most as much space, in proportion to its capacity, as the memory of texts.
    fn numbers_go_first(&self) -> bool
        ensures { result ≡ numbers_go_first self.now }
    {
        let numbers = self.number_objects.space() as u128 * self.text_objects.capacity() as u128;
        let texts = self.text_objects.space() as u128 * self.number_objects.capacity() as u128;
        numbers <= texts
    }
}
