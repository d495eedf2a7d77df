//! Nodes in little room: 16 bits for the production, and 32 for each other number and each child,
//! where they fit.

ghost use Rattle.std.specs.Prelude.{◌≡◌, ◌≤◌, ℕ, length, map, slice_index_or, IfOk, IfSome, IsSome};
ghost use Rattle.std.specs.List.{All};
ghost use Rattle.trees.specs.Cells.{AreBelow};
ghost use Rattle.trees.specs.Forms.{cell, cell_in, label_of, IsNarrow, IsSmall};
ghost use Rattle.trees.specs.Packing.{unpack, HasNumber};
ghost use Rattle.trees.specs.Slides.{renamed};

use crate::children::{Children, pack, unpack};
use crate::store::{Child, NodeId};
use smallvec::SmallVec;
use std::alloc::{AllocError, Global};
use std::marker::Model;

/// The greatest number of a production in 16 bits.
const GREATEST_PRODUCTION: usize = 65_535;

/// The greatest number of 32 bits.
const GREATEST: u64 = 4_294_967_295;

/// How many children lie in a node itself.
const FEW: usize = 4;

/// The numbers of a node.
#[derive(Clone, Copy)]
pub(crate) struct Label {
    /// The number of its production.
    pub production: usize,
    /// The number of the edit that made it.
    pub born: u64,
    /// How many tokens its tree has.
    pub tokens: u64,
    /// How many branches its tree has, its own included.
    pub size: u64,
}

/// A branch of a tree. The counts are those of the whole tree below it, so that no call has to
/// walk a tree.
#[derive(Drop)]
pub(crate) struct Node {
    form: Form,
}

/// How a node lies in memory. The production lies beside the tag, where a struct would begin 8
/// bytes later.
#[derive(Drop)]
enum Form {
    /// A node whose numbers fit, over children that each have a number.
    Narrow {
        production: u16,
        numbers: Numbers,
        /// The packed number of each child.
        children: SmallVec<u32, FEW>,
    },
    /// Any other one.
    Wide(Box<Wide>),
}

const _: () = prove!(size_of::<Node>() == 48);

/// The numbers of a node, but for its production, where they fit.
#[derive(Clone, Copy)]
struct Numbers {
    born: u32,
    tokens: u32,
    size: u32,
}

/// A node as it is.
#[derive(Drop)]
struct Wide {
    label: Label,
    children: SmallVec<Child, FEW>,
}

impl Model for Node {
    ghost use Rattle.trees.specs.Cells.{Cell};
    ghost use Rattle.trees.specs.Forms.{cell_in};

    ghost Value = { Cell };

    ghost view = { λ n. cell_in n.form };
}

impl Node {
    /// The node of these numbers over these children.
    pub fn new(alloc: Global, label: Label, children: &[Child]) -> Result<Node, AllocError>
        ensures { IfOk result (λ node. node ≡ record {
          production = label.production;
          born = label.born;
          tokens = label.tokens;
          size = label.size;
          children = children.now;
        }) }
    {
        let form = form_of(alloc, label, children)?;
        Ok(Node { form })
    }

    /// Its numbers.
    pub fn label(&self) -> Label
        ensures production { result.production ≡ self.now.production }
        ensures born { result.born ≡ self.now.born }
        ensures tokens { result.tokens ≡ self.now.tokens }
        ensures size { result.size ≡ self.now.size }
    {
        match &self.form {
            Form::Narrow {
                production,
                numbers,
                ..
            } => numbers.label(*production),
            Form::Wide(wide) => wide.label,
        }
    }

    /// Its children, in order.
    pub fn children(&self) -> Children<'_>
        ensures { result ≡ self.now.children }
    {
        match &self.form {
            Form::Narrow { children, .. } => Children::narrow(children.as_slice()),
            Form::Wide(wide) => Children::of(wide.children.as_slice()),
        }
    }

    /// Gives each child that is a node the name at its index.
    pub fn rename(&mut self, names: &[usize])
        requires below { AreBelow (length names.now) self.old.children }
        requires lower { (i : ℕ) → slice_index_or names.now i 0 ≤ i }
        ensures { self.new ≡ record {
          production = self.old.production;
          born = self.old.born;
          tokens = self.old.tokens;
          size = self.old.size;
          children = map (renamed names.now) self.old.children;
        } }
    {
        match &mut self.form {
            Form::Narrow { children, .. } => rename_numbers(children.as_mut_slice(), names),
            Form::Wide(wide) => rename_children(wide.children.as_mut_slice(), names),
        }
    }
}

impl Numbers {
    /// The numbers of a label, but for its production, where each is one of 32 bits, and the
    /// production one of 16.
    fn of(label: Label) -> Option<(u16, Numbers)>
        ensures is { IfSome result (λ r. label_of r.0 r.1 ≡ label) }
        ensures every { IsSmall label → IsSome result }
    {
        let Label {
            production,
            born,
            tokens,
            size,
        } = label;
        if production > GREATEST_PRODUCTION || born.max(tokens).max(size) > GREATEST {
            return None;
        }
        let numbers = Numbers {
            born: born as u32,
            tokens: tokens as u32,
            size: size as u32,
        };
        Some((production as u16, numbers))
    }

    /// The label of a node with these numbers and this production.
    fn label(&self, production: u16) -> Label
        ensures { result ≡ label_of production self.now }
    {
        Label {
            production: production as usize,
            born: self.born as u64,
            tokens: self.tokens as u64,
            size: self.size as u64,
        }
    }
}

/// Gives each of these packed children that is a node the name at its index.
fn rename_numbers(numbers: &mut [u32], names: &[usize])
    requires below { AreBelow (length names.now) (map unpack numbers.old) }
    requires lower { (i : ℕ) → slice_index_or names.now i 0 ≤ i }
    ensures { map unpack numbers.new ≡ map (renamed names.now) (map unpack numbers.old) }
{
    for number in numbers.iter_mut() {
        if let Child::Node(id) = unpack(*number) {
            *number = names[id.index] as u32;
        }
    }
}

/// Gives each of these children that is a node the name at its index.
fn rename_children(children: &mut [Child], names: &[usize])
    requires { AreBelow (length names.now) children.old }
    ensures { children.new ≡ map (renamed names.now) children.old }
{
    for child in children.iter_mut() {
        if let Child::Node(id) = *child {
            let index = names[id.index];
            *child = Child::Node(NodeId { index });
        }
    }
}

/// The form of a node: a narrow one wherever its numbers fit and each child has one.
fn form_of(alloc: Global, label: Label, children: &[Child]) -> Result<Form, AllocError>
    ensures is { IfOk result (λ form. cell_in form ≡ cell label children.now) }
    ensures narrow { IsSmall label → All HasNumber children.now → IfOk result IsNarrow }
{
    if let Some(form) = narrow_form(alloc, label, children)? {
        return Ok(form);
    }
    let children = SmallVec::from_slice(alloc, children)?;
    let wide = Box::new(alloc, Wide { label, children })?;
    Ok(Form::Wide(wide))
}

/// The narrow form of a node, where its numbers fit and each child has one.
fn narrow_form(alloc: Global, label: Label, children: &[Child]) -> Result<Option<Form>, AllocError>
    ensures is { IfOk result (λ r. IfSome r (λ form. cell_in form ≡ cell label children.now)) }
    ensures narrow { IfOk result (λ r. IfSome r IsNarrow) }
    ensures every { IsSmall label → All HasNumber children.now → IfOk result IsSome }
{
    let Some((production, numbers)) = Numbers::of(label) else {
        return Ok(None);
    };
    let Some(children) = pack_all(alloc, children)? else {
        return Ok(None);
    };
    Ok(Some(Form::Narrow {
        production,
        numbers,
        children,
    }))
}

/// The packed number of each of the children, where each has one. Nearly all nodes have one to
/// three: an array of known length is written at once, and no room is looked for at each child.
fn pack_all(alloc: Global, children: &[Child]) -> Result<Option<SmallVec<u32, FEW>>, AllocError>
    ensures are { IfOk result (λ r. IfSome r (λ ns. map unpack ns.items ≡ children.now)) }
    ensures every { All HasNumber children.now → IfOk result IsSome }
{
    match children {
        [a] => match pack(*a) {
            Some(a) => Ok(Some(SmallVec::from_array(alloc, [a])?)),
            None => Ok(None),
        },
        [a, b] => match (pack(*a), pack(*b)) {
            (Some(a), Some(b)) => Ok(Some(SmallVec::from_array(alloc, [a, b])?)),
            _ => Ok(None),
        },
        [a, b, c] => match (pack(*a), pack(*b), pack(*c)) {
            (Some(a), Some(b), Some(c)) => Ok(Some(SmallVec::from_array(alloc, [a, b, c])?)),
            _ => Ok(None),
        },
        _ => pack_many(alloc, children),
    }
}

/// The same, one child after another.
fn pack_many(alloc: Global, children: &[Child]) -> Result<Option<SmallVec<u32, FEW>>, AllocError>
    ensures are { IfOk result (λ r. IfSome r (λ ns. map unpack ns.items ≡ children.now)) }
    ensures every { All HasNumber children.now → IfOk result IsSome }
{
    let mut packed = SmallVec::with_capacity(alloc, children.len())?;
    for child in children {
        let Some(number) = pack(*child) else {
            return Ok(None);
        };
        packed.push(number)?;
    }
    Ok(Some(packed))
}
