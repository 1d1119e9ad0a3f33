// Theorems that the specifications state, each on a function that answers nothing.
ghost use Rattle.typing.specs.Judgements.{RuleIsTheRules};
ghost use Rattle.typing.specs.Posing.{AnyGraphSolves};
ghost use Rattle.typing.specs.Solved.{AtMostOneForm, SolvesExactly};
ghost use Rattle.typing.specs.StringRules.{RuleIsLawful, RuleOfStrings, StringsSpellTypings, TestOfLawfulness};
ghost use Rattle.typing.specs.TreeTypings.{ClosedAndClean, Counted, MostGeneral};
ghost use Rattle.typing.specs.Worked.{Worked};

// Each tree of the table of worked strings alone gives its string.
pub fn worked_strings()
    ensures { Worked }
{}

// Solving equations finds the most general form, and finds none only if there is no solution.
pub fn most_general_solutions()
    ensures { SolvesExactly }
{}

// A problem has at most one form whose variables are numbered by first appearance.
pub fn one_form()
    ensures { AtMostOneForm }
{}

// Whatever graph of cells poses a problem, unifying it gives the problem's form.
pub fn any_graph_solves()
    ensures { AnyGraphSolves }
{}

// A node's status and form are what its kind's rule says over the pairs of its children.
pub fn rule_is_the_rules()
    ensures { RuleIsTheRules }
{}

// What a tree alone gives stands for just the pairs that the typing relation gives the tree in which
// every faulty part below the top is a hole.
pub fn most_general_typing()
    ensures { MostGeneral }
{}

// The counts of a tree are the numbers of its clashes, overlong nodes and holes.
pub fn counts_of_nodes()
    ensures { Counted }
{}

// The figures of a tree are all zero exactly if it is well typed in the empty context, and its types
// there are then the ground instances of the form's type.
pub fn closed_and_clean()
    ensures { ClosedAndClean }
{}

// The rule over strings reads the typings that its child strings spell, and spells that of the node.
pub fn rule_of_strings()
    ensures { RuleOfStrings }
{}

// Of lawful strings, as many as the kind has children, the rule gives a lawful string.
pub fn rule_is_lawful()
    ensures { RuleIsLawful }
{}

// The strings that trees alone give spell the typings that they alone give.
pub fn strings_spell_typings()
    ensures { StringsSpellTypings }
{}

// The executable test of lawfulness is true of just the lawful strings.
pub fn test_of_lawfulness()
    ensures { TestOfLawfulness }
{}
