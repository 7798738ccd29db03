// Bound queries, each in one line, as `from 3 where (0.0 = 1 and not 0.1 < 'x') items 0.0 count grouped by 0.0 order 0 down limit 5`.
use hv_model::{BoundQuery, Cmp, ColRef, Cond, Item, Operand};
use hv_row::Value;
use std::alloc::Global;
use std::test::Fail;

// A line that is written word by word.
#[derive(Drop)]
struct Line {
    text: String,
}

impl Line {
    fn word(&mut self, word: &str) -> Result<(), Fail> {
        self.text.push_str(word)?;
        self.text.push(' ')?;
        Ok(())
    }

    fn column(&mut self, column: ColRef) -> Result<(), Fail> {
        write!(self.text, "{}.{} ", column.place, column.column)?;
        Ok(())
    }

    fn operand(&mut self, operand: &Operand) -> Result<(), Fail> {
        match operand {
            Operand::Col(column) => self.column(*column)?,
            Operand::Lit(Value::Int(number)) => write!(self.text, "{number} ")?,
            Operand::Lit(Value::Text(text)) => {
                self.text.push('\'')?;
                self.text.push_str(str::from_utf8(text.as_slice())?)?;
                self.text.push_str("' ")?;
            }
        }
        Ok(())
    }

    #[cycle(line_cond)]
    fn conds(&mut self, between: &str, conds: &[Cond]) -> Result<(), Fail> {
        self.word("(")?;
        for cond in conds {
            self.cond(cond)?;
            self.word(between)?;
        }
        self.word(")")
    }

    #[cycle(line_cond)]
    fn cond(&mut self, cond: &Cond) -> Result<(), Fail> {
        match cond {
            Cond::Always => self.word("always"),
            Cond::Test(left, cmp, right) => {
                self.operand(left)?;
                self.word(match cmp {
                    Cmp::Eq => "=",
                    Cmp::Ne => "<>",
                    Cmp::Lt => "<",
                    Cmp::Le => "<=",
                    Cmp::Gt => ">",
                    Cmp::Ge => ">=",
                })?;
                self.operand(right)
            }
            Cond::All(conds) => self.conds("and", conds.as_slice()),
            Cond::Any(conds) => self.conds("or", conds.as_slice()),
            Cond::Not(cond) => {
                self.word("not")?;
                self.cond(cond.get())
            }
        }
    }

    fn item(&mut self, item: Item) -> Result<(), Fail> {
        let (word, column) = match item {
            Item::Col(column) => return self.column(column),
            Item::Count => return self.word("count"),
            Item::CountOf(column) => ("count", column),
            Item::Sum(column) => ("sum", column),
            Item::Least(column) => ("min", column),
            Item::Greatest(column) => ("max", column),
        };
        self.word(word)?;
        self.column(column)
    }
}

pub fn query_line(alloc: Global, query: &BoundQuery) -> Result<String, Fail> {
    let mut line = Line {
        text: String::from_str(alloc, "from ")?,
    };
    for place in query.places.as_slice() {
        write!(line.text, "{place} ")?;
    }
    line.word("where")?;
    line.cond(&query.cond)?;
    line.word("items")?;
    for item in query.items.as_slice() {
        line.item(*item)?;
    }
    line.word(if query.grouped { "grouped" } else { "plain" })?;
    for group in query.groups.as_slice() {
        line.column(*group)?;
    }
    line.word("order")?;
    for key in query.order.as_slice() {
        write!(
            line.text,
            "{}{} ",
            key.item,
            if key.down { "-" } else { "" }
        )?;
    }
    write!(line.text, "limit {:?}", query.limit)?;
    let Line { text } = line;
    Ok(text)
}
