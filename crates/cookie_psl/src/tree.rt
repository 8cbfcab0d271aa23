//! The rules of a list as a tree of labels, from the last label of each rule to its first.
ghost use Rattle.std.specs.Prelude.{◌≡◌, ◌^◌, ◌<◌, ◌∷◌, [], box_value, length, option_map, IfOk, OnOk, if◌then◌else◌};
ghost use Rattle.cookie_psl.specs.Rules as rules;
ghost use Rattle.cookie_psl.specs.Rules.{SameRules, labels_of};
ghost use Rattle.cookie_psl.specs.Tree.{label_rules, labels_left, rule_of, rules_in, tree_rules};
ghost use Rattle.cookie_psl.specs.declared.tree.Node.{out-Node};

use std::alloc::{AllocError, Global};
use std::collections::BTreeMap;

/// A node of the tree: the rules that end in the same labels, by the label before these.
#[derive(Drop)]
pub(crate) struct Node {
    kids: BTreeMap<String, Node>,
    any: Option<Box<Node>>,
    is_rule: bool,
    is_exception: bool,
}

/// Creates a tree without rules.
pub(crate) fn new(alloc: Global) -> Node
    ensures { tree_rules result ≡ [] }
{
    Node {
        kids: BTreeMap::new(alloc),
        any: None,
        is_rule: false,
        is_exception: false,
    }
}

/// Adds a rule, with its labels from first to last. On an error, other rules may be lost.
pub(crate) fn add(
    alloc: Global,
    node: &mut Node,
    mut labels: Vec<Option<String>>,
    is_exception: bool,
) -> Result<(), AllocError>
    ensures { OnOk result (SameRules (tree_rules node.new) (rule_of is_exception labels.items ∷ tree_rules node.old)) }
{
    match labels.pop() {
        None => end_rule(node, is_exception),
        Some(Some(label)) => {
            let mut kid = or_new(alloc, node.kids.remove(label.as_str()));
            add(alloc, &mut kid, labels, is_exception)?;
            node.kids.insert(label, kid)?;
        }
        Some(None) => {
            let mut any = or_new(alloc, unboxed(node.any.take()));
            add(alloc, &mut any, labels, is_exception)?;
            node.any = Some(Box::new(alloc, any)?);
        }
    }
    Ok(())
}

// Records that a rule ends at `node`.
fn end_rule(node: &mut Node, is_exception: bool)
    ensures { SameRules (tree_rules node.new) (rule_of is_exception [] ∷ tree_rules node.old) }
{
    if is_exception {
        node.is_exception = true;
    } else {
        node.is_rule = true;
    }
}

// Returns the node, or a new one without rules.
fn or_new(alloc: Global, node: Option<Node>) -> Node
    ensures { tree_rules result ≡ rules_in node }
{
    match node {
        Some(node) => node,
        None => new(alloc),
    }
}

// Moves the node out of its box, if there is one.
fn unboxed(any: Option<Box<Node>>) -> Option<Node>
    ensures { result ≡ option_map box_value any }
{
    any.map(Box::into_inner)
}

/// Returns a copy of the tree.
#[cycle(copy)]
pub(crate) fn copy(alloc: Global, node: &Node) -> Result<Node, AllocError>
    ensures { IfOk result (λ copy. tree_rules copy ≡ tree_rules node.now) }
{
    let kids = copy_kids(alloc, &node.kids)?;
    let any = match &node.any {
        Some(any) => Some(Box::new(alloc, copy(alloc, any)?)?),
        None => None,
    };
    Ok(Node {
        kids,
        any,
        is_rule: node.is_rule,
        is_exception: node.is_exception,
    })
}

// Copies the trees below a node.
#[cycle(copy)]
fn copy_kids(
    alloc: Global,
    kids: &BTreeMap<String, Node>,
) -> Result<BTreeMap<String, Node>, AllocError>
    ensures { IfOk result (λ copies. label_rules copies.entries ≡ label_rules kids.now.entries) }
{
    let mut copies = BTreeMap::new(alloc);
    for (label, kid) in kids {
        let own = label.clone()?;
        drop(copies.insert(own, copy(alloc, kid)?)?);
    }
    Ok(copies)
}

/// Returns the number of labels of the longest rule that matches `domain`, among the exceptions or
/// among the other rules.
pub(crate) fn longest(node: &Node, is_exception: bool, domain: &str) -> Option<usize>
    requires { length (labels_of domain.now) < 2 ^ 64 }
    ensures { result ≡ rules.longest is_exception (tree_rules node.now) (labels_of domain.now) }
{
    longest_within(node, is_exception, Some(domain))
}

// As `longest`, for a subtree and the labels of a domain that are left, if there are any.
fn longest_within(node: &Node, is_exception: bool, domain: Option<&str>) -> Option<usize>
    requires { length (labels_left domain) < 2 ^ 64 }
    ensures { result ≡ rules.longest is_exception (tree_rules node.now) (labels_left domain.entry) }
{
    let here = ends_rule(node, is_exception).then_some(0);
    let Some(domain) = domain else {
        return here;
    };
    if node.kids.len() == 0 && node.any.is_none() {
        return here;
    }
    let (prefix, label) = cut_last(domain);
    let by_label = match node.kids.get(label) {
        Some(kid) => longest_within(kid, is_exception, prefix),
        None => None,
    };
    let by_any = match &node.any {
        Some(any) => longest_within(any, is_exception, prefix),
        None => None,
    };
    match greater(by_label, by_any) {
        Some(count) => Some(count + 1),
        None => here,
    }
}

// Whether an exception, or another rule, ends at `node`.
fn ends_rule(node: &Node, is_exception: bool) -> bool
    ensures { result ≡ (if is_exception then (out-Node node.now).is_exception else (out-Node node.now).is_rule) }
{
    if is_exception {
        node.is_exception
    } else {
        node.is_rule
    }
}

// Splits a domain at its last dot into what precedes it, if there is one, and the last label.
fn cut_last(domain: &str) -> (Option<&str>, &str)
    ensures { labels_of domain.now ≡ result.1.now ∷ labels_left result.0 }
{
    match domain.rsplit_once('.') {
        Some((prefix, label)) => (Some(prefix), label),
        None => (None, domain),
    }
}

// Returns the greater of two optional counts.
fn greater(count: Option<usize>, other: Option<usize>) -> Option<usize>
    ensures { result ≡ rules.greater count other }
{
    let (Some(n), Some(m)) = (count, other) else {
        return count.or(other);
    };
    Some(n.max(m))
}
