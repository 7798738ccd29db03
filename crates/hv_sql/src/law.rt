// The laws of the grammar.
ghost use Rattle.hv_model.specs.Terminals.{KindsCompared, KindsApart};
ghost use Rattle.hv_sql.specs.Completion.{FaultsCompleted, FaultsFinal};
ghost use Rattle.hv_sql.specs.Laws.{OneTree, TreesSound, TreesComplete, FaultsSound, FaultsComplete, OneFault, NoFaultToo, OnePlace};

/// Lexemes are one statement or have one fault, and never both; and the reading of them gives it. A select that is grouped has one place.
/// It does nothing: its contract is this law.
pub fn grammar_laws()
    ensures compared { KindsCompared }
    ensures kinds { KindsApart }
    ensures tree { OneTree }
    ensures sound { TreesSound }
    ensures complete { TreesComplete }
    ensures told { FaultsSound }
    ensures tells { FaultsComplete }
    ensures fault { OneFault }
    ensures both { NoFaultToo }
    ensures one_place { OnePlace }
{}

/// What stands before a fault is completed by other bytes to a statement's text, and what stands before and at it by none.
/// It does nothing: its contract is this law.
pub fn fault_law()
    ensures completed { FaultsCompleted }
    ensures ends { FaultsFinal }
{}
