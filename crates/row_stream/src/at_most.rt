// At most N values, held without a heap.
ghost use Rattle.std.specs.Prelude.{◌≡◌, ◌≤◌, length};
ghost use Rattle.row_stream.specs.AtMost.{values_of};

// arrayvec::ArrayVec isn't Copy, and what holds it here is.
#[derive(Clone, Copy)]
pub struct AtMost<T, const N: usize> {
    pub items: [T; N],
    pub count: usize,
}

impl<T: Copy, const N: usize> AtMost<T, N> {
    // These values; the rest of the array is filled up with the filler.
    pub fn copied(values: &[T], filler: T) -> AtMost<T, N>
        requires { length values.now ≤ N }
        ensures { values_of result ≡ values.now }
    {
        let mut items = [filler; N];
        items[..values.len()].copy_from_slice(values);
        AtMost {
            items,
            count: values.len(),
        }
    }

    pub fn view(&self) -> &[T]
        ensures values { result.now ≡ values_of self.now }
        ensures bound { length result.now ≤ N }
    {
        &self.items[..self.count.min(N)]
    }
}
