//! Laws of public suffixes, stated over the definitions in `specs/`.
ghost use Rattle.std.specs.Prelude.{◌≡◌, ℕ, List};
ghost use Rattle.cookie_psl.specs.Rules.{RuleList, SameRules, prevailing};

/// Lists with the same rules give the same result for every domain: neither the order of the rules
/// nor duplicates matter.
pub fn same_rules_prevail()
    ensures { (a b : RuleList) → SameRules a b → (domain : List (List ℕ)) → prevailing a domain ≡ prevailing b domain }
{}
