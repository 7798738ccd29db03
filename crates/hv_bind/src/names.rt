// References and comparisons of a select, in the order of the text.
ghost use Rattle.std.specs.Prelude.{◌≡◌, IfOk, map};
ghost use Rattle.std.specs.Result.{result_err};
ghost use Rattle.hv_model.specs.Causes.{first_of};
ghost use Rattle.hv_model.specs.declared.tree.ItemAst.TheVariants as it;
ghost use Rattle.hv_model.specs.Bound as spec;
ghost use Rattle.hv_model.specs.Fits as fits;

use crate::scope::Scope;
use hv_model::{CondAst, ItemAst, KeyAst, KeyBy, OperandAst, RefAst, Refusal, SelectAst};
use hv_row::{ColType, Value};

/// Whether two operands have one type.
fn same_kind(left: Option<ColType>, right: Option<ColType>) -> bool
    ensures { result ≡ fits.same_kind left right }
{
    matches!(
        (left, right),
        (Some(ColType::Int), Some(ColType::Int)) | (Some(ColType::Text), Some(ColType::Text))
    )
}

impl Scope<'_> {
    /// Refuses a reference that names no column, or columns of two places.
    fn check_ref(&self, reference: &RefAst) -> Result<(), Refusal>
        ensures { result_err result ≡ spec.ref_refusal self.now.places.now self.now.heads.now reference.now }
    {
        self.resolve(reference)?;
        Ok(())
    }

    /// Refuses a sum of texts, at its reference.
    fn check_sum(&self, reference: &RefAst) -> Result<(), Refusal>
        ensures { result_err result ≡ spec.item_refusal self.now.places.now self.now.heads.now (it.Sum reference.now) }
    {
        let column = self.resolve(reference)?;
        match self.kind(column) {
            Some(ColType::Int) => Ok(()),
            _ => Err(Refusal::TypeMismatch {
                byte: reference.byte,
            }),
        }
    }

    /// Refuses an item at its reference.
    fn check_item(&self, item: &ItemAst) -> Result<(), Refusal>
        ensures { result_err result ≡ spec.item_refusal self.now.places.now self.now.heads.now item.now }
    {
        match item {
            ItemAst::Star { .. } | ItemAst::Count => Ok(()),
            ItemAst::Sum(reference) => self.check_sum(reference),
            ItemAst::Col(reference)
            | ItemAst::CountOf(reference)
            | ItemAst::Least(reference)
            | ItemAst::Greatest(reference) => self.check_ref(reference),
        }
    }

    /// Refuses the first item that is refused.
    fn check_items(&self, items: &[ItemAst]) -> Result<(), Refusal>
        ensures { result_err result ≡ first_of (map (spec.item_refusal self.now.places.now self.now.heads.now) items.now) }
    {
        for item in items {
            self.check_item(item)?;
        }
        Ok(())
    }

    /// The type of an operand, or its refusal.
    fn operand_kind(&self, operand: &OperandAst) -> Result<Option<ColType>, Refusal>
        ensures kind { IfOk result
            (λ kind. kind ≡ fits.operand_kind (spec.schemas_of self.now.heads.now) (spec.operand_of self.now.places.now self.now.heads.now operand.now)) }
        ensures refusal { result_err result ≡ spec.operand_refusal self.now.places.now self.now.heads.now operand.now }
    {
        match operand {
            OperandAst::Col(reference) => Ok(self.kind(self.resolve(reference)?)),
            OperandAst::Lit(Value::Int(_)) => Ok(Some(ColType::Int)),
            OperandAst::Lit(Value::Text(_)) => Ok(Some(ColType::Text)),
        }
    }

    /// Refuses the left side of a comparison, its right side, or at the symbol their types.
    fn check_test(&self, left: &OperandAst, right: &OperandAst, byte: u32) -> Result<(), Refusal>
        ensures { result_err result ≡ spec.test_refusal self.now.places.now self.now.heads.now left.now right.now byte }
    {
        let left = self.operand_kind(left)?;
        let right = self.operand_kind(right)?;
        if same_kind(left, right) {
            Ok(())
        } else {
            Err(Refusal::TypeMismatch { byte })
        }
    }

    /// Refuses the first condition that is refused.
    #[cycle(check_cond)]
    fn check_conds(&self, conds: &[CondAst]) -> Result<(), Refusal>
        ensures { result_err result ≡ first_of (map (spec.cond_refusal self.now.places.now self.now.heads.now) conds.now) }
    {
        for cond in conds {
            self.check_cond(cond)?;
        }
        Ok(())
    }

    /// Refuses the first comparison of a condition that is refused.
    #[cycle(check_cond)]
    fn check_cond(&self, cond: &CondAst) -> Result<(), Refusal>
        ensures { result_err result ≡ spec.cond_refusal self.now.places.now self.now.heads.now cond.now }
    {
        match cond {
            CondAst::Always => Ok(()),
            CondAst::Test {
                left,
                right,
                byte,
                ..
            } => self.check_test(left, right, *byte),
            CondAst::All(conds) | CondAst::Any(conds) => self.check_conds(conds.as_slice()),
            CondAst::Not(cond) => self.check_cond(cond.get()),
        }
    }

    /// Refuses the first reference that is refused.
    fn check_refs(&self, references: &[RefAst]) -> Result<(), Refusal>
        ensures { result_err result ≡ first_of (map (spec.ref_refusal self.now.places.now self.now.heads.now) references.now) }
    {
        for reference in references {
            self.check_ref(reference)?;
        }
        Ok(())
    }

    /// Refuses an order key's reference.
    fn check_key(&self, by: &KeyBy) -> Result<(), Refusal>
        ensures { result_err result ≡ spec.key_refusal self.now.places.now self.now.heads.now by.now }
    {
        match by {
            KeyBy::Number(_) => Ok(()),
            KeyBy::Col(reference) => self.check_ref(reference),
        }
    }

    /// Refuses the first order key whose reference is refused.
    fn check_keys(&self, keys: &[KeyAst]) -> Result<(), Refusal>
        ensures { result_err result ≡ first_of (map (λ k. spec.key_refusal self.now.places.now self.now.heads.now k.by) keys.now) }
    {
        for key in keys {
            self.check_key(&key.by)?;
        }
        Ok(())
    }

    /// Refuses the first reference or comparison of a select over these places.
    pub fn check_names(&self, ast: &SelectAst) -> Result<(), Refusal>
        requires { self.now.places.now ≡ ast.now.places }
        ensures { result_err result ≡ spec.names_refusal ast.now self.now.heads.now }
    {
        self.check_items(ast.items.as_slice())?;
        self.check_cond(&ast.cond)?;
        self.check_refs(ast.groups.as_slice())?;
        self.check_keys(ast.order.as_slice())
    }
}
