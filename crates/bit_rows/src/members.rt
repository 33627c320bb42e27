//! The numbers of a row, in ascending order.

ghost use Rattle.std.specs.Prelude.{◌≡◌, ◌*◌, ◌<◌, ◌^◌};
ghost use Rattle.std.specs.Iterator.{YieldsFirst, item_count};
ghost use Rattle.bit_rows.specs.Sets.{numbers_from};

use crate::bit_row::BitRow;

/// The numbers of a row from a number on, in ascending order.
#[derive(Drop)]
pub struct Numbers<'a, const W: usize> {
    row: &'a BitRow<W>,
    from: u32,
    ghost few: { 32 * W < 2 ^ 32 },
}

impl<'a, const W: usize> Numbers<'a, W> {
    /// All numbers of a row.
    pub(crate) fn of(row: &'a BitRow<W>) -> Numbers<'a, W>
        requires { 32 * W < 2 ^ 32 }
        ensures row { result.row.now ≡ row.now }
        ensures from { result.from ≡ 0 }
    {
        Numbers { row, from: 0 }
    }
}

impl<'a, const W: usize> Iterator for Numbers<'a, W> {
    type Item = u32;

    ghost next_gives = { YieldsFirst (λ s. numbers_from s.row.now s.from (32 * W)) };

    ghost remaining = { item_count (λ s. numbers_from s.row.now s.from (32 * W)) };

    fn next(&mut self) -> Option<u32> {
        let Some(number) = self.row.next(self.from) else {
            return None;
        };
        self.from = number + 1;
        Some(number)
    }
}
