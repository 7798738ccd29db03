// Laws of answers and of truth.
ghost use Rattle.hv_expr.specs.Laws.{SameAnswers, OneOrderedAnswer, EachConjunctHolds};

/// Databases that have the same rows, each as often, have the same answers; and a query with order keys has one answer.
/// It does nothing: its contract is this law.
pub fn answer_law()
    ensures bags { SameAnswers }
    ensures ordered { OneOrderedAnswer }
{}

/// Where an AND is true each of its conjuncts is. It does nothing: its contract is this law.
pub fn truth_law()
    ensures conjuncts { EachConjunctHolds }
{}
