//! Laws of the wish, each the contract of a function that does nothing.

ghost use Rattle.std.specs.Prelude.{◌≡◌, ◌≢◌, ◌↔◌, ℕ, ℤ, pos, Bool, true, false, All, List, ◌∷◌, ◌++◌, Some, None};
ghost use Rattle.std.specs.List.{Any};
ghost use Rattle.proxy_config.specs.declared.parts.Acl.{Acl};
ghost use Rattle.proxy_config.specs.declared.parts.Action.{Action};
ghost use Rattle.proxy_config.specs.declared.parts.Condition.{Condition};
ghost use Rattle.proxy_config.specs.declared.parts.Config.{Config};
ghost use Rattle.proxy_config.specs.declared.parts.Guard.TheVariants.{If, Unless};
ghost use Rattle.proxy_config.specs.declared.parts.Pin.{Pin};
ghost use Rattle.proxy_config.specs.declared.parts.Rule.{Rule};
ghost use Rattle.proxy_config.specs.declared.parts.Subject.TheVariants.{Path, PathBegin, PathEnd};
ghost use Rattle.req_view.specs.Request.{Request};
ghost use Rattle.req_view.specs.Target.{path_of};
ghost use Rattle.prio_rules.specs.Truth.{test_holds, term_holds, guard_holds};
ghost use Rattle.prio_rules.specs.Wishes.{set_by, standing, pinned};

/// The last action of a kind that takes effect decides, whatever rules come before it; where none
/// takes effect the number is 0.
pub fn the_last_done_action_stands()
    ensures last { (action : Action) (config : Config) (request : Request) (before after : List Rule) (rule : Rule) (number : ℤ) →
        config.rules ≡ before ++ rule ∷ after → set_by action config.acls request rule ≡ Some number →
        All (λ later. set_by action config.acls request later ≡ None) after → standing action config request ≡ number }
    ensures none { (action : Action) (config : Config) (request : Request) →
        All (λ rule. set_by action config.acls request rule ≡ None) config.rules → standing action config request ≡ pos 0 }
{}

/// The first `use-server` rule that applies gives the pin, whatever rules come after it; where
/// none applies there is no pin.
pub fn the_first_pin_stands()
    ensures first { (config : Config) (request : Request) (before after : List Pin) (pin : Pin) →
        config.pins ≡ before ++ pin ∷ after → guard_holds config.acls request pin.guard ≡ true →
        All (λ earlier. guard_holds config.acls request earlier.guard ≡ false) before → pinned config request ≡ Some pin.server }
    ensures none { (config : Config) (request : Request) →
        All (λ pin. guard_holds config.acls request pin.guard ≡ false) config.pins → pinned config request ≡ None }
{}

/// `if` selects the requests for which each term of one of the alternatives holds, and `unless` all others.
pub fn unless_is_the_rest()
    ensures alternatives { (acls : List Acl) (request : Request) (condition : Condition) →
        (guard_holds acls request (If condition) ≡ true) ↔ Any (λ terms. All (λ term. term_holds acls request term ≡ true) terms) condition.alternatives }
    ensures rest { (acls : List Acl) (request : Request) (condition : Condition) →
        (guard_holds acls request (Unless condition) ≡ true) ↔ (guard_holds acls request (If condition) ≢ true) }
{}

/// Where a target has no path, no test of the path holds.
pub fn no_path_no_test()
    ensures path { (request : Request) (ignore_case : Bool) (values : List (List ℕ)) → path_of request.target ≡ None →
        test_holds request (record { subject = Path; ignore_case = ignore_case; values = values }) ≡ false }
    ensures begin { (request : Request) (ignore_case : Bool) (values : List (List ℕ)) → path_of request.target ≡ None →
        test_holds request (record { subject = PathBegin; ignore_case = ignore_case; values = values }) ≡ false }
    ensures end { (request : Request) (ignore_case : Bool) (values : List (List ℕ)) → path_of request.target ≡ None →
        test_holds request (record { subject = PathEnd; ignore_case = ignore_case; values = values }) ≡ false }
{}
