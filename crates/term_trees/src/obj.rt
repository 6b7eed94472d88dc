//! Objects.
ghost use Rattle.std.specs.Prelude.{◌≡◌, ◌↔◌, ◌≤◌, ◌∷◌, ◌++◌, [], length, slice_get, IfErr, IfOk, OnErr, OnOk, IsNone};
ghost use Rattle.std.specs.Option.{option_copied};
ghost use Rattle.term_trees.specs.Readings.{arguments_of, read_head, read_object, read_objects, read_arguments, row_arguments};

use crate::measure::Measure;
use base_types::{Memory, QName};
use std::alloc::Global;
use std::sync::Arc;

/// The head of an atomic object: a variable, which is the number of binders between it and its own, or a constant.
#[derive(Debug, Drop)]
pub enum Head {
    Var(u32),
    Con(QName),
}

impl Head {
    /// An equal head.
    pub fn copy(&self, alloc: Global) -> Result<Head, Memory>
        ensures { IfOk result (λ head. read_head head ≡ read_head self.now) }
    {
        match self {
            Head::Var(index) => Ok(Head::Var(*index)),
            Head::Con(constant) => Ok(Head::Con(constant.copy(alloc)?)),
        }
    }
}

/// A λ, or a head with its arguments.
#[cycle(objects)]
#[derive(Debug, Drop)]
pub enum Obj {
    Lam(Box<Obj>),
    At { head: Head, spine: Spine },
}

/// Arguments, from left to right. Copies share them, and no arguments take no memory. Arguments that are nested too deep, or would be
/// too many without sharing, are want of memory: so whatever goes through a term does so within a bounded depth, and ends.
#[cycle(objects)]
#[derive(Debug, Drop)]
pub struct Spine {
    row: Option<Arc<Row>>,
    alloc: Global,
}

/// Arguments, of which there is one at least, and what they measure.
#[cycle(objects)]
#[derive(Debug, Drop)]
struct Row {
    items: Vec<Obj>,
    measure: Measure,
}

impl Obj {
    /// An equal object, which shares the arguments. It recurses into the λs around a head. Letting an object go recurses as deep as it
    /// is nested where nothing else shares its arguments.
    pub fn copy(&self, alloc: Global) -> Result<Obj, Memory>
        ensures { IfOk result (λ m. read_object m ≡ read_object self.now) }
    {
        match self {
            Obj::Lam(body) => Ok(Obj::Lam(Box::new(alloc, body.copy(alloc)?)?)),
            Obj::At { head, spine } => Ok(Obj::At {
                head: head.copy(alloc)?,
                spine: spine.copy(alloc)?,
            }),
        }
    }

    /// What the object measures. It recurses into the λs around a head.
    pub(crate) fn measure(&self) -> Measure {
        match self {
            Obj::Lam(body) => body.measure().under_binder(),
            Obj::At { spine, .. } => spine.measure().with_head(),
        }
    }
}

impl Spine {
    /// No arguments. It takes no memory.
    pub fn new(alloc: Global) -> Self
        ensures { arguments_of result ≡ [] }
    {
        Spine { row: None, alloc }
    }

    /// A spine of the arguments of a vector, from the first to the last, which its copies share.
    pub fn of(alloc: Global, items: Vec<Obj>) -> Result<Self, Memory>
        ensures { IfOk result (λ spine. arguments_of spine ≡ items.items) }
    {
        Ok(Spine {
            row: shared(alloc, items)?,
            alloc,
        })
    }

    /// Adds an argument at the end, or lets it go for want of memory. Time grows with the number of arguments.
    pub fn add(&mut self, item: Obj) -> Result<(), Memory>
        ensures ok { OnOk result (read_arguments self.new ≡ read_arguments self.old ++ read_object item ∷ []) }
        ensures err { OnErr result (arguments_of self.new ≡ arguments_of self.old) }
    {
        let row = longer(self.alloc, self.as_slice(), &item)?;
        self.row = row;
        Ok(())
    }

    /// Adds an argument at the end, or hands it back for want of memory. Time grows with the number of arguments.
    pub fn push(&mut self, item: Obj) -> Result<(), Obj>
        ensures ok { OnOk result (read_arguments self.new ≡ read_arguments self.old ++ read_object item ∷ []) }
        ensures err { OnErr result (arguments_of self.new ≡ arguments_of self.old) }
        ensures back { IfErr result (λ back. back ≡ item) }
    {
        match longer(self.alloc, self.as_slice(), &item) {
            Ok(row) => {
                self.row = row;
                Ok(())
            }
            Err(Memory) => Err(item),
        }
    }

    /// The number of arguments.
    pub fn len(&self) -> usize
        ensures { result ≡ length (arguments_of self.now) }
    {
        self.as_slice().len()
    }

    /// The argument at an index. None exactly where the index is past the end.
    pub fn get(&self, i: usize) -> Option<&Obj>
        ensures item { option_copied result ≡ slice_get (arguments_of self.now) i }
        ensures none { IsNone result ↔ (length (arguments_of self.now) ≤ i) }
    {
        self.as_slice().get(i)
    }

    /// The arguments, from the first to the last.
    pub fn as_slice(&self) -> &[Obj]
        ensures { result.now ≡ arguments_of self.now }
    {
        match &self.row {
            Some(row) => row.items.as_slice(),
            None => &[],
        }
    }

    /// The same arguments, for one owner more. It takes no memory.
    pub fn copy(&self, _alloc: Global) -> Result<Spine, Memory>
        ensures { IfOk result (λ spine. read_arguments spine ≡ read_arguments self.now) }
    {
        let row = match &self.row {
            Some(row) => Some(row.clone()?),
            None => None,
        };
        Ok(Spine {
            row,
            alloc: self.alloc,
        })
    }

    /// What the arguments measure.
    fn measure(&self) -> Measure {
        match &self.row {
            Some(row) => row.measure,
            None => Measure::nothing(),
        }
    }
}

/// Arguments in a row that can be shared. None where there are none.
fn shared(alloc: Global, items: Vec<Obj>) -> Result<Option<Arc<Row>>, Memory>
    ensures { IfOk result (λ row. row_arguments row ≡ items.items) }
{
    if items.is_empty() {
        return Ok(None);
    }
    let measure = Measure::together(items.as_slice())?;
    Ok(Some(Arc::new(alloc, Row { items, measure })?))
}

/// Copies of arguments, and of one more behind them.
fn longer(alloc: Global, items: &[Obj], last: &Obj) -> Result<Option<Arc<Row>>, Memory>
    ensures { IfOk result (λ row. read_objects (row_arguments row) ≡ read_objects items.now ++ read_object last.now ∷ []) }
{
    let mut longer = copies(alloc, items, items.len() + 1)?;
    longer.push(last.copy(alloc)?)?;
    shared(alloc, longer)
}

/// Copies of arguments, with room for so many.
pub(crate) fn copies(alloc: Global, items: &[Obj], room: usize) -> Result<Vec<Obj>, Memory>
    ensures { IfOk result (λ copies. read_objects copies.items ≡ read_objects items.now) }
{
    let mut copies = Vec::with_capacity(alloc, room)?;
    for item in items {
        copies.push(item.copy(alloc)?)?;
    }
    Ok(copies)
}
