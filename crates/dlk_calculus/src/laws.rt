//! The laws of the calculus. Each is a contract of a function that does nothing.
ghost use Rattle.std.specs.Prelude.{◌≡◌, ◌<◌, ◌⊎◌, ◌↔◌, ℕ, List, [], ◌∷◌, ◌++◌, length, All, map, Bool, false, Some};
ghost use Rattle.dlk_tree.specs.declared.op.Op.{Op as TheOp};
ghost use Rattle.dlk_tree.specs.declared.op.Op.TheVariants.{Dot, Hole};
ghost use Rattle.dlk_tree.specs.declared.op.Sort.TheVariants.{Formula};
ghost use Rattle.dlk_tree.specs.Trees.{Tree, node, no_kids, sort, WellMade};
ghost use Rattle.dlk_tree.specs.Occurs.{has, has_dots, has_hole};
ghost use Rattle.dlk_calculus.specs.declared.why.Why.{Why as TheWhy};
ghost use Rattle.dlk_calculus.specs.Pairs.{Pair, FirstIll, IsWellFormed};
ghost use Rattle.dlk_calculus.specs.Plug.{Plug, filled};
ghost use Rattle.dlk_calculus.specs.Paths.{subtree, put_at, IsInnermost};
ghost use Rattle.dlk_calculus.specs.Subst.{Subst};
ghost use Rattle.dlk_calculus.specs.Rename.{RenamesBound, Bound};
ghost use Rattle.dlk_calculus.specs.declared.reason.Reason.{Reason as TheReason};
ghost use Rattle.dlk_calculus.specs.Axioms.{Axiom, AxiomaticRule, axioms, axiomatic_rules};
ghost use Rattle.dlk_calculus.specs.Sequents.{IsFormula};
ghost use Rattle.dlk_calculus.specs.Provables.{Provable, HasFormulas, HasLeaves};
ghost use Rattle.dlk_calculus.specs.Reasons.{IsOfCalculus};
ghost use Rattle.dlk_calculus.specs.Limits.{most_rows};
ghost use Rattle.dlk_calculus.specs.Limited.{IsLimited};
ghost use Rattle.dlk_calculus.specs.Steps.{Step, IsProper, Gives, IsWithin, Against, History, Derives, Fault, StepOf};

/// A replacement has at most one result with given arguments. The statement of substitution asks for it.
pub fn one_plug()
    ensures { (args : List Tree) (r s t : Tree) → Plug args r s → Plug args r t → s ≡ t }
{}

/// A replacement without argument dots has no result but itself.
pub fn plug_without_dots()
    ensures { (args : List Tree) (e t : Tree) → Plug args e t → has_dots e ≡ false → t ≡ e }
{}

/// A replacement without argument dots is its own result.
pub fn plug_is_itself()
    ensures { (args : List Tree) (e : Tree) → has_dots e ≡ false → Plug args e e }
{}

/// What is put at a path is there, and a tree with its own subtree put there is the same. With another tree of the same sort it is
/// as well made as before, and of the same sort as before.
pub fn put_is_there()
    ensures there { (e : Tree) (path : List ℕ) (s new : Tree) → subtree e path ≡ Some s → subtree (put_at e path new) path ≡ Some new }
    ensures itself { (e : Tree) (path : List ℕ) (s : Tree) → subtree e path ≡ Some s → put_at e path s ≡ e }
    ensures made { (e : Tree) (path : List ℕ) (s new : Tree) → WellMade e → WellMade new → subtree e path ≡ Some s → sort new ≡ sort s →
        WellMade (put_at e path new) }
    ensures sort { (e : Tree) (path : List ℕ) (s new : Tree) → subtree e path ≡ Some s → sort new ≡ sort s → sort (put_at e path new) ≡ sort e }
{}

/// A formula in place of the one `_` of a tree, and an argument in place of the one argument dot, come to stand where these were
/// put.
pub fn put_is_filled()
    ensures hole { (e : Tree) (path : List ℕ) (f : Tree) → has_hole e ≡ false → filled f (put_at e path (node Hole no_kids)) ≡ put_at e path f }
    ensures dot { (e : Tree) (path : List ℕ) (a t : Tree) → has_dots e ≡ false → Plug (a ∷ []) (put_at e path (node (Dot 0) no_kids)) t → t ≡ put_at e path a }
{}

/// A path that leads on from a subtree leads to the subtree of that one, and what is put there is put into that one.
pub fn paths_join()
    ensures subtree { (e : Tree) (outer inner : List ℕ) (d : Tree) → subtree e outer ≡ Some d → subtree e (outer ++ inner) ≡ subtree d inner }
    ensures put { (e : Tree) (outer inner : List ℕ) (d new : Tree) → subtree e outer ≡ Some d →
        put_at e (outer ++ inner) new ≡ put_at e outer (put_at d inner new) }
    ensures way { (e : Tree) (outer inner : List ℕ) (s : Tree) → subtree e (outer ++ inner) ≡ Some s → (d : Tree) × (subtree e outer ≡ Some d) }
{}

/// A subtree is as well made as its tree, and no operator stands in it that doesn't in the tree.
pub fn subtrees_keep()
    ensures made { (e : Tree) (path : List ℕ) (s : Tree) → WellMade e → subtree e path ≡ Some s → WellMade s }
    ensures lack { (test : TheOp → Bool) (e : Tree) (path : List ℕ) (s : Tree) → has test e ≡ false → subtree e path ≡ Some s → has test s ≡ false }
{}

/// At most one formula is the smallest round a subtree. One is, where the whole tree is a formula.
pub fn one_innermost()
    ensures one { (e : Tree) (path a b c d : List ℕ) (f g : Tree) → IsInnermost e path a b f → IsInnermost e path c d g → (a ≡ c) × (b ≡ d) × (f ≡ g) }
    ensures some { (e : Tree) (path : List ℕ) (s : Tree) → sort e ≡ Formula → subtree e path ≡ Some s →
        (outer : List ℕ) × (inner : List ℕ) × (f : Tree) × IsInnermost e path outer inner f }
{}

/// Pairs are well formed, or there is a first bad one, with one reason against it.
/// The statement of substitution asks for it.
pub fn one_first_ill()
    ensures one { (pairs : List Pair) (m n : ℕ) (why other : TheWhy) → FirstIll pairs m why → FirstIll pairs n other → (m ≡ n) × (why ≡ other) }
    ensures some { (pairs : List Pair) → IsWellFormed pairs ⊎ ((n : ℕ) × (why : TheWhy) × FirstIll pairs n why) }
    ensures not_both { (pairs : List Pair) (n : ℕ) (why : TheWhy) → IsWellFormed pairs → FirstIll pairs n why → ⊥ }
{}

/// A substitution makes at most one tree of a tree. The statement of substitution asks for it.
pub fn one_subst()
    ensures { (pairs : List Pair) (e s t : Tree) → Subst pairs e s → Subst pairs e t → s ≡ t }
{}

/// What a substitution makes is of the same sort.
pub fn subst_keeps_sort()
    ensures { (pairs : List Pair) → IsWellFormed pairs → (e t : Tree) → WellMade e → Subst pairs e t → sort t ≡ sort e }
{}

/// What a substitution whose pairs are well formed makes of a formula is a formula: well made, of that sort, and without
/// argument dots and `_`. The statement of substitution asks for it.
pub fn subst_keeps_formulas()
    ensures { (pairs : List Pair) → IsWellFormed pairs → (e t : Tree) → IsFormula e → Subst pairs e t → IsFormula t }
{}

/// A substitution makes a tree of a tree, or it makes none of it: which of both is decided.
/// The statement of substitution asks for it.
pub fn subst_decided()
    ensures { (pairs : List Pair) (e : Tree) → ((t : Tree) × Subst pairs e t) ⊎ ((t : Tree) → Subst pairs e t → ⊥) }
{}

/// A formula binds outermost at most one variable that can have another name, over one formula, and with the other name it is
/// one formula. The statement of renaming asks for it.
pub fn one_renamed()
    ensures { (y : List ℕ) (t : Tree) (p q : Bound) → RenamesBound p.x y p.f t p.g → RenamesBound q.x y q.f t q.g → p ≡ q }
{}

/// A formula binds such a variable, or it binds none: which of both is decided. Where it binds one, there is a result with each
/// name. The statement of renaming asks for it.
pub fn renamed_decided()
    ensures decided { (y : List ℕ) (t : Tree) → ((p : Bound) × RenamesBound p.x y p.f t p.g) ⊎ ((p : Bound) → RenamesBound p.x y p.f t p.g → ⊥) }
    ensures another { (x y z : List ℕ) (f t u : Tree) → RenamesBound x y f t u → (v : Tree) × RenamesBound x z f t v }
{}

/// A step gives at most one provable.
pub fn one_provable()
    ensures { (rows : List Provable) (step : Step) (p q : Provable) → Gives rows step p → Gives rows step q → p ≡ q }
{}

/// A step has at most one fault.
pub fn one_fault()
    ensures { (rows : List Provable) (step : Step) (why other : TheReason) → Fault rows step why → Fault rows step other → why ≡ other }
{}

/// A proper step is taken exactly where nothing speaks against it. A rule of the calculus gives something exactly where nothing but a
/// limit does.
pub fn given_unless_against()
    ensures given { (rows : List Provable) (step : Step) (p : Provable) (why : TheReason) → IsOfCalculus why → Gives rows step p → Against rows step why → ⊥ }
    ensures against { (rows : List Provable) (step : Step) → IsProper step → ((p : Provable) × StepOf rows step p) ⊎ ((why : TheReason) × Fault rows step why) }
    ensures limits { (rows : List Provable) (step : Step) (why : TheReason) → IsProper step → (IsOfCalculus why → ⊥) → Fault rows step why →
        (p : Provable) × Gives rows step p }
{}

/// A step is taken exactly where a rule of the calculus gives something, all of it is within the limits, and there are fewer rows
/// than the most.
pub fn taken_as_given()
    ensures { (rows : List Provable) (step : Step) (p : Provable) → StepOf rows step p ↔ (Gives rows step p × IsWithin step p × (length rows < most_rows)) }
{}

/// If no reason of the calculus speaks against a proper step, a rule of the calculus gives something.
/// The statement of the calculus asks for it.
pub fn given_without_reason()
    ensures { (rows : List Provable) (step : Step) → IsProper step → ((why : TheReason) → IsOfCalculus why → Against rows step why → ⊥) →
        (p : Provable) × Gives rows step p }
{}

/// What is taken from rows within the limits is within them. The statement of the kernel's rows asks for it.
pub fn steps_keep_limits()
    ensures { (rows : List Provable) (step : Step) (p : Provable) → All IsLimited rows → StepOf rows step p → IsLimited p }
{}

/// Each row of a history is derived, and what is derived ends a history.
pub fn history_derives()
    ensures rows { (rows : List Provable) → History rows → All Derives rows }
    ensures ends { (p : Provable) → Derives p → (rows : List Provable) × History (rows ++ p ∷ []) }
{}

/// What is derived is made of formulas.
pub fn derived_formulas()
    ensures { (p : Provable) → Derives p → HasFormulas p }
{}

/// The leaves of what is derived are sequents of arithmetic, and none stands twice.
/// The statement of the calculus asks for it.
pub fn derived_leaves()
    ensures { (p : Provable) → Derives p → HasLeaves p }
{}

/// The axioms and the axiomatic rules are made of formulas.
pub fn axiom_formulas()
    ensures axioms { All IsFormula (map (λ (a : Axiom). a.formula) axioms) }
    ensures premises { All IsFormula (map (λ (r : AxiomaticRule). r.premise) axiomatic_rules) }
    ensures conclusions { All IsFormula (map (λ (r : AxiomaticRule). r.conclusion) axiomatic_rules) }
{}
