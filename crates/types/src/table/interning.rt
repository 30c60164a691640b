// The types of the table, and their codes.
ghost use Rattle.std.specs.Prelude.{◌≡◌, ◌<◌, ◌≤◌, [], ◌∷◌, length, slice_index_or, IfOk, vec_capacity, Decides, MatchOption};
ghost use Rattle.types.specs.Types.{int, bool, pair, list};
ghost use Rattle.types.specs.Entries.{ty_of, above, counted, int_entry, first, NodeAt, Missing};
ghost use Rattle.types.specs.Table.{types_in, type_of, Shows, Agrees, Interned};

use super::super::node::{Entry, TypeNode};
use super::{CAPACITY, TypeTable};
use std::alloc::{AllocError, Global};

// The most parts that are counted.
const MAX_COUNT: usize = 1_000_000;

const INT: Entry = Entry {
    node: TypeNode::Int,
    count: 1,
};

// Where a node stands among the entries.
fn find(entries: &[Entry], node: TypeNode) -> Option<usize>
    ensures { MatchOption result (Missing entries.now node) (λ i. (i < length entries.now) × NodeAt entries.now i node) }
{
    entries.iter().position(|entry| entry.node == node)
}

// Puts in the types that every table has.
fn begin(entries: &mut Vec<Entry>)
    requires empty { entries.old.items ≡ [] }
    requires room { 1100 ≤ vec_capacity entries.old }
    ensures items { entries.new.items ≡ first }
    ensures capacity { vec_capacity entries.new ≡ vec_capacity entries.old }
{
    entries.push_reserved(INT);
    entries.push_reserved(Entry {
        node: TypeNode::Bool,
        ..INT
    });
}

impl TypeTable {
    // A table of the types int and bool, with room for more.
    pub fn new(heap: Global) -> Result<TypeTable, AllocError>
        ensures { IfOk result (λ t. types_in t ≡ int ∷ bool ∷ []) }
    {
        let mut entries = Vec::with_capacity(heap, CAPACITY)?;
        begin(&mut entries);
        Ok(TypeTable { entries })
    }

    // Leaves the types int and bool only.
    pub fn clear(&mut self)
        ensures { types_in self.new ≡ int ∷ bool ∷ [] }
    {
        self.entries.clear();
        begin(&mut self.entries);
    }

    // How many types the table holds.
    pub fn len(&self) -> usize
        ensures { result ≡ length (types_in self.now) }
    {
        self.entries.len()
    }

    // The code of the type int.
    pub fn int(&self) -> usize
        ensures code { result ≡ 0 }
        ensures within { result < length (types_in self.now) }
        ensures is { type_of self.now result ≡ int }
    {
        0
    }

    // The code of the type bool.
    pub fn bool(&self) -> usize
        ensures code { result ≡ 1 }
        ensures within { result < length (types_in self.now) }
        ensures is { type_of self.now result ≡ bool }
    {
        1
    }

    // The code itself if the table has it, or else that of int, for which all others stand.
    pub fn known(&self, code: usize) -> usize
        ensures within { result < length (types_in self.now) }
        ensures is { type_of self.now result ≡ type_of self.now code }
    {
        if code < self.len() { code } else { self.int() }
    }

    // The same node, by codes that the table has.
    fn known_node(&self, node: TypeNode) -> TypeNode
        ensures within { above result ≤ length (types_in self.now) }
        ensures is { ty_of (types_in self.now) result ≡ ty_of (types_in self.now) node }
    {
        match node {
            TypeNode::Int | TypeNode::Bool => node,
            TypeNode::Pair(left, right) => TypeNode::Pair(self.known(left), self.known(right)),
            TypeNode::List(element) => TypeNode::List(self.known(element)),
        }
    }

    fn entry(&self, code: usize) -> Entry
        ensures { result ≡ slice_index_or self.now.entries.items code int_entry }
    {
        self.entries.get(code).copied().unwrap_or(INT)
    }

    // What a type is made of.
    pub fn node(&self, code: usize) -> TypeNode
        ensures { Shows (types_in self.now) code result }
    {
        self.entry(code).node
    }

    // How many parts a type has, or a million if it has more.
    pub fn parts(&self, code: usize) -> usize
        ensures { result ≡ counted (type_of self.now code) }
    {
        self.entry(code).count
    }

    // The same, of a code that the table has.
    pub(crate) fn parts_at(&self, code: usize) -> usize
        requires { code < length (types_in self.now) }
        ensures { result ≡ counted (type_of self.now code) }
    {
        self.entries[code].count
    }

    // How many parts the type that a node is has, or a million if it has more.
    pub fn count(&self, node: TypeNode) -> usize
        ensures { result ≡ counted (ty_of (types_in self.now) node) }
    {
        let parts = match node {
            TypeNode::Int | TypeNode::Bool => 1,
            TypeNode::Pair(left, right) => self.parts(left) + self.parts(right),
            TypeNode::List(element) => 1 + self.parts(element),
        };
        parts.min(MAX_COUNT)
    }

    // Whether two codes name the same type.
    pub fn same(&self, a: usize, b: usize) -> bool
        ensures decides { Decides result (type_of self.now a ≡ type_of self.now b) }
        ensures agrees { Agrees result (type_of self.now a) (type_of self.now b) }
    {
        self.known(a) == self.known(b)
    }

    // Whether a code names the type that a node is.
    pub fn is(&self, code: usize, node: TypeNode) -> bool
        ensures decides { Decides result (type_of self.now code ≡ ty_of (types_in self.now) node) }
        ensures agrees { Agrees result (type_of self.now code) (ty_of (types_in self.now) node) }
    {
        match node {
            TypeNode::Int => self.same(code, self.int()),
            TypeNode::Bool => self.same(code, self.bool()),
            _ => self.node(code) == self.known_node(node),
        }
    }

    // The code of the type that a node is. The type is added if it is not there.
    #[inline(always)]
    pub fn intern(&mut self, node: TypeNode) -> usize
        requires { length (types_in self.old) < 1100 }
        ensures { Interned (types_in self.old) (ty_of (types_in self.old) node) (types_in self.new) result }
    {
        let node = self.known_node(node);
        match find(self.entries.as_slice(), node) {
            Some(code) => code,
            None => {
                let code = self.entries.len();
                let count = self.count(node);
                self.entries.push_reserved(Entry { node, count });
                code
            }
        }
    }

    // The code of the type of pairs of two types.
    pub fn pair(&mut self, left: usize, right: usize) -> usize
        requires { length (types_in self.old) < 1100 }
        ensures { Interned (types_in self.old) (pair (type_of self.old left) (type_of self.old right)) (types_in self.new) result }
    {
        self.intern(TypeNode::Pair(left, right))
    }

    // The code of the type of lists of an element type.
    pub fn list(&mut self, element: usize) -> usize
        requires { length (types_in self.old) < 1100 }
        ensures { Interned (types_in self.old) (list (type_of self.old element)) (types_in self.new) result }
    {
        self.intern(TypeNode::List(element))
    }
}
