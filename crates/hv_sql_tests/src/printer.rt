// Trees as lines of text.
use hv_model::{
    Ast, Cmp, CondAst, ItemAst, KeyAst, KeyBy, OperandAst, PlaceAst, RefAst, SelectAst, Word,
};
use hv_row::{Bytes, ColType, Column, Value};
use std::alloc::Global;
use std::test::Fail;

// What a line tells of a tree: its shape alone, or each byte too, as `a@7`.
#[derive(Debug, Clone, Copy, PartialEq, Eq)]
pub enum Detail {
    Shape,
    Bytes,
}

// Writes a tree as one line, as `select(a count(*); from t as u; where (a = 1 and not b < 'x'); group a; order 1 desc; limit 5)`.
// A list of AND or OR stands in parentheses. An order key that is a column has its reference's byte and its own.
#[derive(Drop)]
struct Printer {
    line: String,
    detail: Detail,
}

impl Printer {
    fn into_line(self) -> String {
        let Printer { line, detail: _ } = self;
        line
    }

    fn push(&mut self, text: &str) -> Result<(), Fail> {
        self.line.push_str(text)?;
        Ok(())
    }

    fn number(&mut self, number: u64) -> Result<(), Fail> {
        write!(self.line, "{number}")?;
        Ok(())
    }

    fn byte(&mut self, byte: u32) -> Result<(), Fail> {
        if self.detail == Detail::Bytes {
            write!(self.line, "@{byte}")?;
        }
        Ok(())
    }

    fn name(&mut self, name: &Bytes) -> Result<(), Fail> {
        self.push(str::from_utf8(name.as_slice())?)
    }

    fn word(&mut self, word: &Word) -> Result<(), Fail> {
        self.name(&word.name)?;
        self.byte(word.byte)
    }

    fn reference(&mut self, of: &RefAst) -> Result<(), Fail> {
        if let Some(alias) = &of.alias {
            self.name(alias)?;
            self.push(".")?;
        }
        self.name(&of.column)?;
        self.byte(of.byte)
    }

    fn statement(&mut self, tree: &Ast) -> Result<(), Fail> {
        match tree {
            Ast::Create { table, columns } => {
                self.push("create ")?;
                self.word(table)?;
                self.columns(columns.as_slice())
            }
            Ast::Import { table, lines } => {
                self.push("import ")?;
                self.word(table)?;
                self.push(" ")?;
                self.number(*lines)
            }
            Ast::Purge { chunk, table } => {
                self.push("purge ")?;
                self.number(*chunk)?;
                self.push(" of ")?;
                self.word(table)
            }
            Ast::Merge { parts, table } => {
                self.push("merge ")?;
                self.parts(parts.as_slice())?;
                self.push("of ")?;
                self.word(table)
            }
            Ast::Session { name } => {
                self.push("session ")?;
                self.word(name)
            }
            Ast::Barrier => self.push("barrier"),
            Ast::Select(select) => self.select(select),
        }
    }

    fn columns(&mut self, columns: &[Column]) -> Result<(), Fail> {
        let mut before = " (";
        for column in columns {
            self.push(before)?;
            self.column(column)?;
            before = ", ";
        }
        self.push(")")
    }

    fn column(&mut self, column: &Column) -> Result<(), Fail> {
        self.name(&column.name)?;
        self.push(match column.kind {
            ColType::Int => " int",
            ColType::Text => " text",
        })?;
        if column.index {
            self.push(" index")?;
        }
        if column.range {
            self.push(" range")?;
        }
        Ok(())
    }

    fn parts(&mut self, parts: &[u64]) -> Result<(), Fail> {
        for part in parts {
            self.number(*part)?;
            self.push(" ")?;
        }
        Ok(())
    }

    fn select(&mut self, select: &SelectAst) -> Result<(), Fail> {
        self.items(select.items.as_slice())?;
        self.places(select.places.as_slice())?;
        if !matches!(&select.cond, CondAst::Always) {
            self.push("; where ")?;
            self.condition(&select.cond)?;
        }
        self.groups(select.groups.as_slice())?;
        self.keys(select.order.as_slice())?;
        if let Some(limit) = select.limit {
            self.push("; limit ")?;
            self.number(limit)?;
        }
        self.push(")")
    }

    fn items(&mut self, items: &[ItemAst]) -> Result<(), Fail> {
        let mut before = "select(";
        for item in items {
            self.push(before)?;
            self.item(item)?;
            before = " ";
        }
        Ok(())
    }

    fn item(&mut self, item: &ItemAst) -> Result<(), Fail> {
        match item {
            ItemAst::Star { byte } => {
                self.push("*")?;
                self.byte(*byte)
            }
            ItemAst::Col(of) => self.reference(of),
            ItemAst::Count => self.push("count(*)"),
            ItemAst::CountOf(of) => self.aggregate("count(", of),
            ItemAst::Sum(of) => self.aggregate("sum(", of),
            ItemAst::Least(of) => self.aggregate("least(", of),
            ItemAst::Greatest(of) => self.aggregate("greatest(", of),
        }
    }

    fn aggregate(&mut self, before: &str, of: &RefAst) -> Result<(), Fail> {
        self.push(before)?;
        self.reference(of)?;
        self.push(")")
    }

    fn places(&mut self, places: &[PlaceAst]) -> Result<(), Fail> {
        let mut before = "; from ";
        for place in places {
            self.push(before)?;
            self.place(place)?;
            before = " ";
        }
        Ok(())
    }

    fn place(&mut self, place: &PlaceAst) -> Result<(), Fail> {
        self.word(&place.table)?;
        if let Some(alias) = &place.alias {
            self.push(" as ")?;
            self.word(alias)?;
        }
        Ok(())
    }

    fn groups(&mut self, groups: &[RefAst]) -> Result<(), Fail> {
        let mut before = "; group ";
        for group in groups {
            self.push(before)?;
            self.reference(group)?;
            before = " ";
        }
        Ok(())
    }

    fn keys(&mut self, keys: &[KeyAst]) -> Result<(), Fail> {
        let mut before = "; order ";
        for key in keys {
            self.push(before)?;
            self.key(key)?;
            before = " ";
        }
        Ok(())
    }

    fn key(&mut self, key: &KeyAst) -> Result<(), Fail> {
        match &key.by {
            KeyBy::Number(number) => self.number(*number)?,
            KeyBy::Col(of) => self.reference(of)?,
        }
        self.byte(key.byte)?;
        if key.down {
            self.push(" desc")?;
        }
        Ok(())
    }

    #[cycle(condition)]
    fn condition(&mut self, cond: &CondAst) -> Result<(), Fail> {
        match cond {
            CondAst::Always => self.push("always"),
            CondAst::Test {
                left,
                cmp,
                right,
                byte,
            } => {
                self.operand(left)?;
                self.push(symbol(*cmp))?;
                self.byte(*byte)?;
                self.push(" ")?;
                self.operand(right)
            }
            CondAst::All(conds) => self.joined(" and ", conds.as_slice()),
            CondAst::Any(conds) => self.joined(" or ", conds.as_slice()),
            CondAst::Not(inner) => {
                self.push("not ")?;
                self.condition(inner.get())
            }
        }
    }

    #[cycle(condition)]
    fn joined(&mut self, between: &str, conds: &[CondAst]) -> Result<(), Fail> {
        let mut before = "(";
        for cond in conds {
            self.push(before)?;
            self.condition(cond)?;
            before = between;
        }
        self.push(")")
    }

    fn operand(&mut self, operand: &OperandAst) -> Result<(), Fail> {
        match operand {
            OperandAst::Col(of) => self.reference(of),
            OperandAst::Lit(Value::Int(number)) => {
                write!(self.line, "{number}")?;
                Ok(())
            }
            OperandAst::Lit(Value::Text(text)) => {
                self.push("'")?;
                self.name(text)?;
                self.push("'")
            }
        }
    }
}

fn symbol(cmp: Cmp) -> &'static str {
    match cmp {
        Cmp::Eq => " =",
        Cmp::Ne => " <>",
        Cmp::Lt => " <",
        Cmp::Le => " <=",
        Cmp::Gt => " >",
        Cmp::Ge => " >=",
    }
}

// The line of a tree.
pub fn tree_line(alloc: Global, detail: Detail, tree: &Ast) -> Result<String, Fail> {
    let mut printer = Printer {
        line: String::new(alloc),
        detail,
    };
    printer.statement(tree)?;
    Ok(printer.into_line())
}
