//! A map from key sequences to values, kept as a tree.
ghost use Rattle.std.specs.Prelude.{◌≡◌, ◌<◌, ◌≤◌, ◌+◌, ◌^◌, ◌∷◌, ◌++◌, [], IfNone, IfOk, IfSome, OnErr, OnOk, Option, None, Some, get_or, length, map, option_map, set, take};
ghost use Rattle.std.specs.List.{list_any, starts_with};
ghost use Rattle.line_config.specs.Error.{MemoryOnly};
ghost use Rattle.line_input.specs.Event.{same_key};
ghost use Rattle.line_input.specs.KeyTree as tree;
ghost use Rattle.line_input.specs.KeyTree.{IsKeyTree, LeadsTo, Puts, beginning_count, child_by, shape_of, value_of, values_of, paths};

use line_config::Result;
use line_keys::keys::KeyEvent;
use std::alloc::Global;
use std::marker::Model;

// A node of a tree: the value of the sequence that ends here, if it has one, and the number of the
// child that each key leads to.
#[derive(Drop)]
struct Node<V> {
    value: Option<V>,
    children: Vec<(KeyEvent, usize)>,
}

impl<V> Node<V> {
    // Returns the number of the child that a key leads to.
    fn child(&self, key: KeyEvent) -> Option<usize>
        ensures { result ≡ child_by self.now.children.items key }
    {
        for (own, child) in &self.children {
            if *own == key {
                return Some(*child);
            }
        }
        None
    }
}

// A map from key sequences to values. Sequences that begin with the same keys share the nodes of
// those keys. Nodes name each other by number, and number 0 is the root, where the empty sequence
// ends.
#[derive(Drop)]
pub(crate) struct KeyTree<V> {
    alloc: Global,
    nodes: Vec<Node<V>>,
}

impl<V> Model for KeyTree<V> {
    ghost use Rattle.std.specs.Prelude.{List, length};
    ghost use Rattle.line_keys.specs.declared.keys.KeyEvent.{KeyEvent};

    ghost Value = { List (List KeyEvent × V) };

    ghost use Rattle.line_input.specs.KeyTree.{IsKeyTree, held, shape_of, values_of, paths};

    ghost view = { λ tree.
        held (paths (shape_of tree.nodes.items) (length (shape_of tree.nodes.items)))
        (values_of tree.nodes.items) };

    ghost invariant = { λ tree.
        IsKeyTree (shape_of tree.nodes.items) (values_of tree.nodes.items) };
}

impl<V: Drop> KeyTree<V> {
    // Returns a tree without a sequence. It grows from `alloc`.
    pub(crate) fn new(alloc: Global) -> KeyTree<V>
        ensures { result ≡ [] }
    {
        KeyTree {
            alloc,
            nodes: Vec::new(alloc),
        }
    }

    // Sets the value of a sequence. Returns the value that it had, if it had one. Where memory runs
    // out, the tree is as it was.
    pub(crate) fn insert(&mut self, keys: &[KeyEvent], value: V) -> Result<Option<V>>
        ensures puts { OnOk result (Puts self.old self.new keys.now value) }
        ensures old { IfOk result (λ old. old ≡ value_of self.old keys.now) }
        ensures err { OnErr result (self.new ≡ self.old) }
        ensures memory { MemoryOnly result }
    {
        if self.nodes.is_empty() {
            self.nodes = branch(self.alloc, keys, 0, value)?;
            return Ok(None);
        }
        let (node, depth) = reach(&self.nodes, keys);
        if depth == keys.len() {
            return Ok(self.nodes[node].value.replace(value));
        }
        let branch = branch(self.alloc, &keys[depth + 1..], self.nodes.len(), value)?;
        graft(&mut self.nodes, node, keys[depth], branch)?;
        Ok(None)
    }

    // Returns the value of a sequence, if it has one.
    pub(crate) fn get(&self, keys: &[KeyEvent]) -> Option<&V>
        ensures { option_map (λ value. value.now) result ≡ value_of self.now keys.now }
    {
        match find(&self.nodes, keys) {
            Some(node) => self.nodes[node].value.as_ref(),
            None => None,
        }
    }

    // Returns whether a sequence that has a value is these keys, or begins with them.
    pub(crate) fn leads_on(&self, front: &[KeyEvent]) -> bool
        ensures { result ≡ list_any (λ entry. starts_with same_key entry.0 front.now) self.now }
    {
        find(&self.nodes, front).is_some()
    }

    // Returns the number of different beginnings of its sequences, the empty one not counted.
    pub(crate) fn beginnings(&self) -> usize
        ensures { result ≡ beginning_count (map (λ entry. entry.0) self.now) }
    {
        self.nodes.len().saturating_sub(1)
    }

    // Where the tree grows from.
    pub(crate) fn alloc(&self) -> Global {
        self.alloc
    }
}

// Returns the last node that the keys lead to from the root, and how many of the keys lead there.
fn reach<V>(nodes: &[Node<V>], keys: &[KeyEvent]) -> (usize, usize)
    requires root { 0 < length nodes.now }
    requires tree { IsKeyTree (shape_of nodes.now) (values_of nodes.now) }
    ensures far { result.1 ≤ length keys.now }
    ensures node { LeadsTo (shape_of nodes.now) (take result.1 keys.now) result.0 }
    ensures no_farther { (key : _) → result.1 < length keys.now
        → key ≡ get_or keys.now result.1 key
        → child_by (get_or (shape_of nodes.now) result.0 []) key ≡ None }
{
    let mut node = 0;
    let mut depth = 0;
    for key in keys {
        match nodes[node].child(*key) {
            Some(child) => node = child,
            None => return (node, depth),
        }
        depth += 1;
    }
    (node, depth)
}

// Returns the node that keys lead to from the root.
fn find<V>(nodes: &[Node<V>], keys: &[KeyEvent]) -> Option<usize>
    requires { IsKeyTree (shape_of nodes.now) (values_of nodes.now) }
    ensures found { IfSome result (LeadsTo (shape_of nodes.now) keys.now) }
    ensures missing { IfNone result
        ((node : _) → LeadsTo (shape_of nodes.now) keys.now node → ⊥) }
{
    if nodes.is_empty() {
        return None;
    }
    let (node, depth) = reach(nodes, keys);
    if depth == keys.len() {
        Some(node)
    } else {
        None
    }
}

// Returns nodes one after another by these keys, numbered from `first`, of which the last one has
// the value.
fn branch<V: Drop>(alloc: Global, keys: &[KeyEvent], first: usize, value: V) -> Result<Vec<Node<V>>>
    requires numbered { first + length keys.now < 2 ^ 64 }
    ensures shape { IfOk result (λ nodes. shape_of nodes.items ≡ tree.branch first keys.now) }
    ensures values { IfOk result (λ nodes.
        values_of nodes.items ≡ map (λ key. None) keys.now ++ Some value ∷ []) }
    ensures memory { MemoryOnly result }
{
    let mut nodes = Vec::new(alloc);
    let mut child = first;
    for key in keys {
        child += 1;
        let mut children = Vec::new(alloc);
        children.push((*key, child))?;
        nodes.push(Node {
            value: None,
            children,
        })?;
    }
    nodes.push(Node {
        value: Some(value),
        children: Vec::new(alloc),
    })?;
    Ok(nodes)
}

// Hangs a branch below a node, by a key. Where memory runs out, the nodes are as they were.
fn graft<V: Drop>(
    nodes: &mut Vec<Node<V>>,
    node: usize,
    key: KeyEvent,
    mut branch: Vec<Node<V>>,
) -> Result<()>
    requires { node < length nodes.old.items }
    ensures shape { OnOk result (shape_of nodes.new.items
        ≡ set (shape_of nodes.old.items) node
        (get_or (shape_of nodes.old.items) node [] ++ (key, length nodes.old.items) ∷ [])
        ++ shape_of branch.items) }
    ensures values { OnOk result
        (values_of nodes.new.items ≡ values_of nodes.old.items ++ values_of branch.items) }
    ensures shape_kept { OnErr result (shape_of nodes.new.items ≡ shape_of nodes.old.items) }
    ensures values_kept { OnErr result (values_of nodes.new.items ≡ values_of nodes.old.items) }
    ensures memory { MemoryOnly result }
{
    let first = nodes.len();
    nodes[node].children.reserve(1)?;
    nodes.append(&mut branch)?;
    nodes[node].children.push_reserved((key, first));
    Ok(())
}
