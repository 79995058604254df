ghost use Rattle.std.specs.Prelude.{◌≡◌, ◌*◌, ◌%◌, ◌≤◌, length, ◌<◌, List, IsTrue, ◌↔◌, take, drop, slice_index_or};
ghost use Rattle.elements.specs.Limits.{longest_list};
ghost use Rattle.elements.specs.Orders.{IsFirstFall};
ghost use Rattle.sheets.specs.Layouts.{elements_in, packed};
ghost use Rattle.sheets.specs.Readings.{Filled};

use crate::sheet_element::SheetElement;
use elements::list::first_fall_by_index;
use std::marker::PhantomData;

/// The bytes after a header, where they are a whole number of elements, and not too many.
#[derive(Drop)]
pub(crate) struct Body<'a, T: SheetElement> {
    pub(crate) bytes: &'a [u8],
    pub(crate) of: PhantomData<T>,
    ghost whole: { length bytes.now % T.SheetElement.format.width ≡ 0 },
    ghost few: { elements_in T.SheetElement.format bytes.now ≤ longest_list },
}

impl<'a, T: SheetElement> Body<'a, T> {
    /// How many elements there are.
    pub(crate) fn len(&self) -> usize
        ensures { result ≡ elements_in T.SheetElement.format self.now.bytes.now }
    {
        self.bytes.len() / T::BYTES_EACH
    }

    /// The bytes of the element at an index.
    fn part(&self, i: usize) -> &[u8]
        requires { i < elements_in T.SheetElement.format self.now.bytes.now }
        ensures { result.now ≡ take T.SheetElement.format.width (drop (i * T.SheetElement.format.width) self.now.bytes.now) }
    {
        &self.bytes[i * T::BYTES_EACH..][..T::BYTES_EACH]
    }

    /// The element at an index, whatever list the bytes are.
    fn element(&self, i: usize) -> T
        requires { i < elements_in T.SheetElement.format self.now.bytes.now }
        ensures { (xs : List T) (d : T) → packed T.SheetElement.format xs ≡ self.now.bytes.now → slice_index_or xs i d ≡ result }
    {
        T::decode(self.part(i)).unwrap_or(T::sample())
    }

    /// Where the list falls first. The bytes are looked at for this, before anything is written, since a refused sheet leaves
    /// the slice as it was.
    pub(crate) fn first_fall(&self) -> Option<usize>
        ensures { (xs : List T) → packed T.SheetElement.format xs ≡ self.now.bytes.now → IsFirstFall T.Ordered.before xs result }
    {
        first_fall_by_index(self.len(), |i| self.element(i))
    }

    /// Writes the list into the slice, from its start.
    pub(crate) fn fill(&self, list: &mut [T])
        requires { elements_in T.SheetElement.format self.now.bytes.now ≤ length list.old }
        ensures { (xs : List T) → packed T.SheetElement.format xs ≡ self.now.bytes.now → Filled xs list.old list.new }
    {
        for i in 0..self.len() {
            list[i] = self.element(i);
        }
    }
}
