ghost use Rattle.std.specs.Prelude.{◌≡◌, ◌*◌, ◌<◌, ◌≤◌, ◌↔◌, length, replicate, None, IfOk, IsTrue, IsNone};
ghost use Rattle.sel_algebra.specs.Entries.{joined, composed, entry_class, greater_class};
ghost use Rattle.sel_algebra.specs.Table.{types_most, laid_out, IsMatrix, entry, path_of, product_row, product_cells, sum_cells, JoinsEach, zero_of, one_of, times_of, plus_of, SetsEntry, HasNoEntries};
ghost use Rattle.sel_algebra.specs.Closure.{IsClosureOf, closure_of};
ghost use Rattle.sel_algebra.specs.Greatest.{IsGreatestClass, greatest_from, greatest_class_of};

use crate::operators::{class_of, compose, join, normal};
use crate::vocabulary::{Class, Kind, Op};
use std::alloc::{AllocError, Global};
use std::marker::Model;

/// Operators between the types of a list, each of which is fixed or growing.
///
/// The entry from one type to another says how the paths between them grow, and is `None` where
/// there is no path. It is always the normal form for the kinds of the two types.
#[derive(Drop)]
pub struct Matrix {
    kinds: Vec<Kind>,
    /// The entries row by row.
    cells: Vec<Option<Op>>,
}

impl Model for Matrix {
    ghost use Rattle.sel_algebra.specs.Table.{Table, laid_out, IsMatrix};

    ghost Value = { Table };

    ghost view = { λ m. laid_out m.kinds.items m.cells.items };

    ghost invariant = { λ m. IsMatrix (laid_out m.kinds.items m.cells.items) };
}

impl Matrix {
    /// The matrix with no entries.
    pub fn zero(alloc: Global, kinds: &[Kind]) -> Result<Matrix, AllocError>
        requires { length kinds.now ≤ types_most }
        ensures value { IfOk result (λ zero. zero ≡ zero_of kinds.now) }
        ensures matrix { IfOk result (λ zero. IsMatrix zero) }
    {
        let cells = cells_of_zero(alloc, kinds)?;
        Matrix::with_cells(alloc, kinds, cells)
    }

    /// The matrix with `Equal` from each type to itself, and no other entry.
    pub fn one(alloc: Global, kinds: &[Kind]) -> Result<Matrix, AllocError>
        requires { length kinds.now ≤ types_most }
        ensures value { IfOk result (λ one. one ≡ one_of kinds.now) }
        ensures matrix { IfOk result (λ one. IsMatrix one) }
    {
        let cells = cells_of_one(alloc, kinds)?;
        Matrix::with_cells(alloc, kinds, cells)
    }

    /// The kinds of the types.
    pub fn kinds(&self) -> &[Kind]
        ensures value { result.now ≡ self.now.kinds }
        ensures matrix { IsMatrix self.now }
    {
        self.kinds.as_slice()
    }

    /// Makes the normal form of `op` the entry from one type to another.
    pub fn set(&mut self, from: u8, to: u8, op: Op)
        requires from { from < length self.old.kinds }
        requires to { to < length self.old.kinds }
        ensures entries { SetsEntry self.old self.new from to op }
        ensures matrix { IsMatrix self.new }
    {
        set_cell(
            self.kinds.as_slice(),
            self.cells.as_mut_slice(),
            from as usize,
            to as usize,
            op,
        );
    }

    /// The entry from one type to another.
    pub fn get(&self, from: u8, to: u8) -> Option<Op>
        requires from { from < length self.now.kinds }
        requires to { to < length self.now.kinds }
        ensures entry { result ≡ entry self.now from to }
        ensures matrix { IsMatrix self.now }
    {
        self.cells[from as usize * self.kinds.len() + to as usize]
    }

    /// The product: a path through this matrix and then through the other one.
    ///
    /// The entry from one type to another is the join over all types between of the normal form of
    /// the composition, and `None` where no type has both entries.
    pub fn times(&self, alloc: Global, other: &Matrix) -> Result<Matrix, AllocError>
        requires { other.now.kinds ≡ self.now.kinds }
        ensures value { IfOk result (λ product. product ≡ times_of self.now other.now) }
        ensures matrix { IfOk result (λ product. IsMatrix product) }
    {
        let kinds = self.kinds.as_slice();
        let cells = cells_of_product(alloc, kinds, self.cells.as_slice(), other.cells.as_slice())?;
        Matrix::with_cells(alloc, kinds, cells)
    }

    /// The join entry by entry, `None` being below all.
    pub fn plus(&self, alloc: Global, other: &Matrix) -> Result<Matrix, AllocError>
        requires { other.now.kinds ≡ self.now.kinds }
        ensures value { IfOk result (λ sum. sum ≡ plus_of self.now other.now) }
        ensures matrix { IfOk result (λ sum. IsMatrix sum) }
    {
        let kinds = self.kinds.as_slice();
        let cells = cells_of_sum(alloc, kinds, self.cells.as_slice(), other.cells.as_slice())?;
        Matrix::with_cells(alloc, kinds, cells)
    }

    /// The least matrix over the same types that is at least [`Matrix::one`] and at least this
    /// matrix times itself: paths repeated any number of times, also none.
    pub fn closure(&self, alloc: Global) -> Result<Matrix, AllocError>
        ensures value { IfOk result (λ closure. closure ≡ closure_of self.now) }
        ensures least { IfOk result (λ closure. IsClosureOf self.now closure) }
        ensures matrix { IfOk result (λ closure. IsMatrix closure) }
    {
        let one = Matrix::one(alloc, self.kinds())?;
        let mut closure = Matrix::one(alloc, self.kinds())?;
        loop {
            let next = one.plus(alloc, &self.times(alloc, &closure)?)?;
            if next.has_cells_of(&closure) {
                return Ok(closure);
            }
            closure = next;
        }
    }

    /// The greatest growth class of the entries, and `None` where there is no entry.
    pub fn greatest_class(&self) -> Option<Class>
        ensures value { result ≡ greatest_class_of self.now }
        ensures greatest { IsGreatestClass self.now result }
        ensures none { IsNone result ↔ HasNoEntries self.now }
    {
        greatest_class_of(self.kinds.as_slice(), self.cells.as_slice())
    }

    /// The matrix with these entries.
    fn with_cells(
        alloc: Global,
        kinds: &[Kind],
        cells: Vec<Option<Op>>,
    ) -> Result<Matrix, AllocError>
        requires { IsMatrix (laid_out kinds.now cells.items) }
        ensures value { IfOk result (λ matrix. matrix ≡ laid_out kinds.now cells.items) }
        ensures matrix { IfOk result (λ matrix. IsMatrix matrix) }
    {
        Ok(Matrix {
            kinds: kinds.to_vec(alloc)?,
            cells,
        })
    }

    /// Whether the entries are those of the other matrix.
    fn has_cells_of(&self, other: &Matrix) -> bool
        ensures { IsTrue result ↔ (self.now.cells ≡ other.now.cells) }
    {
        self.cells.as_slice() == other.cells.as_slice()
    }
}

/// The entries of the matrix that has none.
fn cells_of_zero(alloc: Global, kinds: &[Kind]) -> Result<Vec<Option<Op>>, AllocError>
    requires { length kinds.now ≤ types_most }
    ensures { IfOk result (λ cells. cells.items ≡ (zero_of kinds.now).cells) }
{
    no_entries(alloc, kinds.len() * kinds.len())
}

/// A number of entries, none of them there.
fn no_entries(alloc: Global, count: usize) -> Result<Vec<Option<Op>>, AllocError>
    ensures { IfOk result (λ entries. entries.items ≡ replicate count None) }
{
    vec![in alloc; None; count]
}

/// The entries of the matrix that is `Equal` from each type to itself.
fn cells_of_one(alloc: Global, kinds: &[Kind]) -> Result<Vec<Option<Op>>, AllocError>
    requires { length kinds.now ≤ types_most }
    ensures { IfOk result (λ cells. cells.items ≡ (one_of kinds.now).cells) }
{
    let mut cells = no_entries(alloc, kinds.len() * kinds.len())?;
    enter_equal(kinds, cells.as_mut_slice());
    Ok(cells)
}

/// Makes `Equal` the entry from each type to itself, where there was none.
fn enter_equal(kinds: &[Kind], cells: &mut [Option<Op>])
    requires few { length kinds.now ≤ types_most }
    requires none { cells.old ≡ replicate (length kinds.now * length kinds.now) None }
    ensures { cells.new ≡ (one_of kinds.now).cells }
{
    let size = kinds.len();
    for t in 0..size {
        cells[t * size + t] = Some(Op::Equal);
    }
}

/// The entries of a product, from those of the first matrix and the second.
fn cells_of_product(
    alloc: Global,
    kinds: &[Kind],
    first: &[Option<Op>],
    second: &[Option<Op>],
) -> Result<Vec<Option<Op>>, AllocError>
    requires few { length kinds.now ≤ types_most }
    requires first { length first.now ≡ length kinds.now * length kinds.now }
    requires second { length second.now ≡ length kinds.now * length kinds.now }
    ensures { IfOk result (λ cells. cells.items ≡ product_cells kinds.now first.now second.now) }
{
    let size = kinds.len();
    let mut cells = Vec::with_capacity(alloc, size * size)?;
    for from in 0..size {
        let mut row = no_entries(alloc, size)?;
        product_row(kinds, first, second, from, row.as_mut_slice());
        cells.append(&mut row)?;
    }
    Ok(cells)
}

/// Makes an empty row a row of a product: for each type the join of the paths to it.
fn product_row(
    kinds: &[Kind],
    first: &[Option<Op>],
    second: &[Option<Op>],
    from: usize,
    row: &mut [Option<Op>],
)
    requires few { length kinds.now ≤ types_most }
    requires first { length first.now ≡ length kinds.now * length kinds.now }
    requires second { length second.now ≡ length kinds.now * length kinds.now }
    requires from { from < length kinds.now }
    requires row { row.old ≡ replicate (length kinds.now) None }
    ensures { row.new ≡ product_row kinds.now first.now second.now from }
{
    for middle in 0..kinds.len() {
        join_paths(kinds, first, second, from, middle, row);
    }
}

/// Joins each entry of a row with the path to its type through the type `middle`.
fn join_paths(
    kinds: &[Kind],
    first: &[Option<Op>],
    second: &[Option<Op>],
    from: usize,
    middle: usize,
    row: &mut [Option<Op>],
)
    requires few { length kinds.now ≤ types_most }
    requires first { length first.now ≡ length kinds.now * length kinds.now }
    requires second { length second.now ≡ length kinds.now * length kinds.now }
    requires from { from < length kinds.now }
    requires middle { middle < length kinds.now }
    requires row { length row.old ≡ length kinds.now }
    ensures { JoinsEach row.old row.new (λ to. path_of kinds.now first.now second.now from to middle) }
{
    let size = kinds.len();
    let step = first[from * size + middle];
    if step.is_none() {
        return;
    }
    for to in 0..size {
        let path = composed_entry(step, second[middle * size + to], kinds[from], kinds[to]);
        row[to] = joined_entry(row[to], path);
    }
}

/// The entries of a join, from those of the two matrices.
fn cells_of_sum(
    alloc: Global,
    kinds: &[Kind],
    first: &[Option<Op>],
    second: &[Option<Op>],
) -> Result<Vec<Option<Op>>, AllocError>
    requires few { length kinds.now ≤ types_most }
    requires first { length first.now ≡ length kinds.now * length kinds.now }
    requires second { length second.now ≡ length kinds.now * length kinds.now }
    ensures { IfOk result (λ cells. cells.items ≡ sum_cells kinds.now first.now second.now) }
{
    let mut cells = Vec::with_capacity(alloc, first.len())?;
    for place in 0..first.len() {
        cells.push(joined_entry(first[place], second[place]))?;
    }
    Ok(cells)
}

/// The normal form of the composition of two entries, and `None` where one is missing.
fn composed_entry(first: Option<Op>, second: Option<Op>, from: Kind, to: Kind) -> Option<Op>
    ensures { result ≡ composed first second from to }
{
    match (first, second) {
        (Some(first), Some(second)) => Some(normal(compose(first, second), from, to)),
        _ => None,
    }
}

/// The join of two entries, `None` being below all.
fn joined_entry(first: Option<Op>, second: Option<Op>) -> Option<Op>
    ensures { result ≡ joined first second }
{
    match (first, second) {
        (Some(first), Some(second)) => Some(join(first, second)),
        (None, second) => second,
        (first, None) => first,
    }
}

/// Makes the normal form of `op` the entry from one type to another.
fn set_cell(kinds: &[Kind], cells: &mut [Option<Op>], from: usize, to: usize, op: Op)
    requires matrix { IsMatrix (laid_out kinds.now cells.old) }
    requires from { from < length kinds.now }
    requires to { to < length kinds.now }
    ensures entries { SetsEntry (laid_out kinds.now cells.old) (laid_out kinds.now cells.new) from to op }
    ensures matrix { IsMatrix (laid_out kinds.now cells.new) }
{
    cells[from * kinds.len() + to] = Some(normal(op, kinds[from], kinds[to]));
}

/// The greatest growth class of the entries, and `None` where there is no entry.
fn greatest_class_of(kinds: &[Kind], cells: &[Option<Op>]) -> Option<Class>
    requires few { length kinds.now ≤ types_most }
    requires cells { length cells.now ≡ length kinds.now * length kinds.now }
    ensures { result ≡ greatest_class_of (laid_out kinds.now cells.now) }
{
    let mut greatest = None;
    for from in 0..kinds.len() {
        greatest = greater_class(greatest, greatest_class_from(kinds, cells, from));
    }
    greatest
}

/// The greatest growth class of the entries from a type, and `None` where there is no such entry.
fn greatest_class_from(kinds: &[Kind], cells: &[Option<Op>], from: usize) -> Option<Class>
    requires few { length kinds.now ≤ types_most }
    requires cells { length cells.now ≡ length kinds.now * length kinds.now }
    requires from { from < length kinds.now }
    ensures { result ≡ greatest_from (laid_out kinds.now cells.now) from }
{
    let size = kinds.len();
    let mut greatest = None;
    for to in 0..size {
        let class = class_of_entry(cells[from * size + to], kinds[from], kinds[to]);
        greatest = greater_class(greatest, class);
    }
    greatest
}

/// The growth class of an entry, and `None` where there is none.
fn class_of_entry(entry: Option<Op>, from: Kind, to: Kind) -> Option<Class>
    ensures { result ≡ entry_class entry from to }
{
    match entry {
        Some(op) => Some(class_of(op, from, to)),
        None => None,
    }
}

/// The greater of two classes, `None` being below all.
pub fn greater_class(first: Option<Class>, second: Option<Class>) -> Option<Class>
    ensures { result ≡ greater_class first second }
{
    match (first, second) {
        (Some(first), Some(second)) => Some(if first <= second { second } else { first }),
        (None, second) => second,
        (first, None) => first,
    }
}
