//! A public suffix list in the format of publicsuffix.org.
ghost use Rattle.std.specs.Prelude.{◌≡◌, ◌∷◌, [], option_map, IfOk, IfSome};
ghost use Rattle.std.specs.Str.Iter.{HasSubslice};
ghost use Rattle.cookie_psl.specs.ParsedLists.{ParsesList, AddsLine};
ghost use Rattle.cookie_psl.specs.ListFormat.{line_rule, rules_from};
ghost use Rattle.cookie_psl.specs.Rules.{default_rule, labels_of, prevailing, registrable_domain, suffix_of, without_final_dot, SameRules};
ghost use Rattle.cookie_psl.specs.Views.{suffix_value};

use crate::reading::{LineError, read_line};
use crate::suffix::{prevailing_count, registrable_by, suffix_by, without_final_dot};
use crate::tree::Node;
use crate::{ListError, Suffix, tree};
use std::alloc::{AllocError, Global};
use std::marker::Model;

/// A public suffix list: the one of publicsuffix.org, or any other in its format.
///
/// Each line is read up to its first white space. The part read is a rule, or is skipped if it is
/// empty or begins with `//`.
#[derive(Drop)]
pub struct List {
    alloc: Global,
    root: Node,
}

impl Model for List {
    ghost use Rattle.cookie_psl.specs.Rules.{RuleList};
    ghost use Rattle.cookie_psl.specs.Tree.{tree_rules};

    ghost Value = { RuleList };

    ghost view = { λ list. tree_rules list.root };
}

impl Clone for List {
    ghost is_clone = { λ list copy. copy ≡ list };

    fn clone(&self) -> Result<List, AllocError> {
        Ok(List {
            alloc: self.alloc,
            root: tree::copy(self.alloc, &self.root)?,
        })
    }
}

impl List {
    /// Creates a list without rules.
    pub fn new(alloc: Global) -> List
        ensures { result ≡ [] }
    {
        List {
            alloc,
            root: tree::new(alloc),
        }
    }

    /// Parses a public suffix list.
    ///
    /// # Errors
    ///
    /// Lines are parsed in order, and the first error is returned:
    /// - `BadRule`: a line is malformed; the error has its number.
    /// - `Memory`: out of memory.
    pub fn from_text(alloc: Global, text: &str) -> Result<List, ListError>
        ensures { ParsesList result (rules_from text.now) }
    {
        let mut list = List::new(alloc);
        for (index, line) in text.split('\n').enumerate() {
            list.add_line(alloc, line, index + 1)?;
        }
        Ok(list)
    }

    /// Adds the rule `*`, by which each top-level domain without a rule of its own is a public
    /// suffix, as in the algorithm of publicsuffix.org. Without this rule, [`Suffix::is_known`] is
    /// false for such a domain. Fails only if out of memory.
    pub fn with_default_rule(self) -> Result<List, AllocError>
        ensures { IfOk result (λ list. SameRules list (default_rule ∷ self)) }
    {
        let List { alloc, mut root } = self;
        let labels = Vec::from_array(alloc, [None])?;
        tree::add(alloc, &mut root, labels, false)?;
        Ok(List { alloc, root })
    }

    /// Returns the public suffix of `domain` as a slice of it, or `None` if `domain` is empty or a
    /// single dot.
    ///
    /// If no rule of the list matches, the suffix is the last label, and [`Suffix::is_known`] is
    /// false. Labels are compared byte by byte: convert `domain` to ASCII and lower case first.
    pub fn suffix<'d>(&self, domain: &'d str) -> Option<Suffix<'d>>
        ensures value { option_map suffix_value result ≡ suffix_of self.now domain.now }
        ensures slice { IfSome result (λ suffix. HasSubslice domain.now (suffix_value suffix).text) }
    {
        let (count, is_known) = self.prevailing(domain);
        suffix_by(domain, count, is_known)
    }

    /// Returns the registrable domain of `domain` as a slice of it: the public suffix and the label
    /// before it. Returns `None` if `domain` is itself a public suffix, by whatever rule, or is
    /// empty or a single dot.
    ///
    /// The public suffix is that of [`suffix`](Self::suffix).
    pub fn registrable_domain<'d>(&self, domain: &'d str) -> Option<&'d str>
        ensures { option_map (λ text. text.now) result ≡ registrable_domain self.now domain.now }
    {
        let (count, _) = self.prevailing(domain);
        registrable_by(domain, count)
    }

    // Returns the number of labels of the public suffix of `domain`, and whether a rule of the list
    // matched.
    fn prevailing(&self, domain: &str) -> (usize, bool)
        ensures count { result.0 ≡ (prevailing self.now (labels_of (without_final_dot domain.now))).count }
        ensures is_known { result.1 ≡ (prevailing self.now (labels_of (without_final_dot domain.now))).is_known }
    {
        let exception = tree::longest(&self.root, true, without_final_dot(domain));
        let rule = tree::longest(&self.root, false, without_final_dot(domain));
        prevailing_count(exception, rule)
    }

    // Adds the rule of line `number`, if it has one.
    fn add_line(&mut self, alloc: Global, line: &str, number: usize) -> Result<(), ListError>
        ensures { AddsLine result (line_rule line.now) number self.old self.new }
    {
        match read_line(alloc, line) {
            Ok(Some(rule)) => match tree::add(
                alloc,
                &mut self.root,
                rule.labels,
                rule.is_exception,
            ) {
                Ok(()) => Ok(()),
                Err(_) => Err(ListError::Memory),
            },
            Ok(None) => Ok(()),
            Err(LineError::Bad) => Err(ListError::BadRule { line: number }),
            Err(LineError::Memory) => Err(ListError::Memory),
        }
    }
}
