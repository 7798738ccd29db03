// Conditions whose names are resolved.
ghost use Rattle.std.specs.Prelude.{◌≡◌, map, IfOk};
ghost use Rattle.hv_model.specs.Bound as spec;

use crate::scope::Scope;
use hv_model::{Cond, CondAst, Operand, OperandAst};
use hv_row::Copied;
use sqlite_items::{Boxed, Items};
use std::alloc::{AllocError, Global};

impl Scope<'_> {
    /// The operand that one stands for.
    fn operand_of(&self, alloc: Global, operand: &OperandAst) -> Result<Operand, AllocError>
        ensures { IfOk result (λ bound. bound ≡ spec.operand_of self.now.places.now self.now.heads.now operand.now) }
    {
        match operand {
            OperandAst::Col(reference) => Ok(Operand::Col(self.column_of(reference))),
            OperandAst::Lit(value) => Ok(Operand::Lit(value.copy(alloc)?)),
        }
    }

    /// The conditions that these stand for.
    #[cycle(cond_of)]
    fn conds_of(&self, alloc: Global, conds: &[CondAst]) -> Result<Items<Cond>, AllocError>
        ensures { IfOk result (λ bound. bound ≡ map (spec.cond_of self.now.places.now self.now.heads.now) conds.now) }
    {
        let mut bound = Items::from_vec(Vec::with_capacity(alloc, conds.len())?);
        for cond in conds {
            bound.push(self.cond_of(alloc, cond)?)?;
        }
        Ok(bound)
    }

    /// The condition that one stands for.
    #[cycle(cond_of)]
    pub fn cond_of(&self, alloc: Global, cond: &CondAst) -> Result<Cond, AllocError>
        ensures { IfOk result (λ bound. bound ≡ spec.cond_of self.now.places.now self.now.heads.now cond.now) }
    {
        match cond {
            CondAst::Always => Ok(Cond::Always),
            CondAst::Test {
                left,
                cmp,
                right,
                ..
            } => Ok(Cond::Test(
                self.operand_of(alloc, left)?,
                *cmp,
                self.operand_of(alloc, right)?,
            )),
            CondAst::All(conds) => Ok(Cond::All(self.conds_of(alloc, conds.as_slice())?)),
            CondAst::Any(conds) => Ok(Cond::Any(self.conds_of(alloc, conds.as_slice())?)),
            CondAst::Not(cond) => Ok(Cond::Not(Boxed::new(
                alloc,
                self.cond_of(alloc, cond.get())?,
            )?)),
        }
    }
}
