//! Laws of the grammar, each the contract of a function that does nothing.

ghost use Rattle.std.specs.Prelude.{◌≡◌, ℕ, Bool, List, Option, Ok, Err};
ghost use Rattle.proxy_config.specs.Conditions.{condition};
ghost use Rattle.proxy_config.specs.ConditionGrammar.{IsCondition};
ghost use Rattle.proxy_config.specs.Resolved.{Resolved, start, resolved_words};
ghost use Rattle.proxy_config.specs.Faulty.{HasFault};
ghost use Rattle.proxy_config.specs.File.{run};
ghost use Rattle.proxy_config.specs.Laws.{FirstFault};
ghost use Rattle.proxy_config.specs.LeftToRight.{IsLeftToRight};
ghost use Rattle.proxy_config.specs.CauseTable.{EachInItsRow};
ghost use Rattle.proxy_config.specs.declared.faults.FaultCause.{FaultCause};
ghost use Rattle.proxy_config.specs.declared.faults.ConfigFault.{ConfigFault};
ghost use Rattle.proxy_config.specs.declared.parts.Acl.{Acl};
ghost use Rattle.proxy_config.specs.declared.parts.Condition.{Condition};
ghost use Rattle.proxy_config.specs.declared.parts.Server.{Server};

/// Words are read as a condition exactly where they are one: alternatives with `or` or `||` between
/// them, each of one or more terms, and each term an ACL's name or a test in braces, with at most
/// one `!` before it.
pub fn conditions_are_read_as_spelled()
    ensures found { (acls : List Acl) (words : List (List ℕ)) (c : Condition) →
        condition acls words ≡ Ok c → IsCondition acls words c }
    ensures only { (acls : List Acl) (words : List (List ℕ)) (c : Condition) →
        IsCondition acls words c → condition acls words ≡ Ok c }
{}

/// The first faulty line is named, whatever lines follow it.
pub fn a_faulty_line_names_itself()
    ensures { (servers : List Server) (long : Option ℕ) (lines : List (List ℕ)) (fault : ConfigFault) →
        FirstFault servers long lines fault → run servers long start 1 lines ≡ Err fault }
{}

/// The causes `quoting`, `place`, `section` and `limit` stand exactly where their rows of
/// `docs/FORMATS.md` say, and no line has the cause `missing`.
pub fn each_cause_stands_in_its_row()
    ensures { (servers : List Server) (too_long : Bool) (so_far : Resolved) (n : ℕ) (line : List ℕ) →
        EachInItsRow servers too_long so_far n line }
{}

/// The other causes stand where their rows say, `keyword`, `words`, `number`, `address`, `name`,
/// `twice`, `unknown` and `condition`, each for the words that have it, whatever words follow them;
/// `limit` too, where there is one item too many.
pub fn each_cause_has_its_words()
    ensures { (servers : List Server) (so_far : Resolved) (n : ℕ) (words : List (List ℕ)) (cause : FaultCause) →
        HasFault servers so_far words cause → resolved_words servers so_far n words ≡ Err cause }
{}

/// The words of a line are read from the left: a fault other than `words` is that of a word that can't stand
/// where it does, whatever follows it, and after words that are at most too few.
pub fn words_are_read_from_the_left()
    ensures { (servers : List Server) (so_far : Resolved) (n : ℕ) →
        IsLeftToRight (resolved_words servers so_far n) }
{}
