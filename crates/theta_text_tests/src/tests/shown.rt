// A tree in brackets: `[+r{x} = +s{y}]`, `[abs +r{x} <= 2]`, `[text r{x} = <y>]`, `(A and B)`.

use row_cells::{Bytes, Side};
use std::alloc::{AllocError, Global};
use theta_tree::{Name, Op, Pred, Sum, Term, TextSide};

pub fn shown(alloc: Global, tree: &Pred) -> Result<Bytes, AllocError> {
    let mut out = Bytes::new(alloc);
    show(alloc, tree, &mut out)?;
    Ok(out)
}

fn show(alloc: Global, tree: &Pred, out: &mut Bytes) -> Result<(), AllocError> {
    match tree {
        Pred::Or(members) => {
            let mut before = b"(".as_slice();
            for member in members {
                out.append(before)?;
                show(alloc, member, out)?;
                before = b" or ".as_slice();
            }
            out.append(b")".as_slice())
        }
        Pred::And(members) => {
            let mut before = b"(".as_slice();
            for member in members {
                out.append(before)?;
                show(alloc, member, out)?;
                before = b" and ".as_slice();
            }
            out.append(b")".as_slice())
        }
        Pred::Not(inner) => {
            out.append(b"not ".as_slice())?;
            show(alloc, inner, out)
        }
        Pred::Num { left, op, right } => {
            out.append(b"[".as_slice())?;
            show_sum(alloc, left, out)?;
            out.append(b" ".as_slice())?;
            out.append(sign(*op))?;
            out.append(b" ".as_slice())?;
            show_sum(alloc, right, out)?;
            out.append(b"]".as_slice())
        }
        Pred::Abs { sum, op, bound } => {
            out.append(b"[abs ".as_slice())?;
            show_sum(alloc, sum, out)?;
            out.append(b" ".as_slice())?;
            out.append(sign(*op))?;
            let number = format!(in alloc; " {bound}]")?;
            out.append(number.as_bytes())
        }
        Pred::Txt { left, op, right } => {
            out.append(b"[".as_slice())?;
            show_side(left, out)?;
            out.append(b" ".as_slice())?;
            out.append(sign(*op))?;
            out.append(b" ".as_slice())?;
            show_side(right, out)?;
            out.append(b"]".as_slice())
        }
    }
}

// Each term with its sign before it, and a blank between two.
fn show_sum(alloc: Global, sum: &Sum, out: &mut Bytes) -> Result<(), AllocError> {
    let mut before = b"".as_slice();
    for signed in sum.as_slice() {
        out.append(before)?;
        before = b" ".as_slice();
        let minus = if signed.minus {
            b"-".as_slice()
        } else {
            b"+".as_slice()
        };
        out.append(minus)?;
        match &signed.term {
            Term::Const(value) => {
                let number = format!(in alloc; "{value}")?;
                out.append(number.as_bytes())?;
            }
            Term::Col(name) => show_name(name, out)?,
        }
    }
    Ok(())
}

fn show_side(side: &TextSide, out: &mut Bytes) -> Result<(), AllocError> {
    match side {
        TextSide::Lit(text) => {
            out.append(b"<".as_slice())?;
            out.append(text.as_slice())?;
            out.append(b">".as_slice())
        }
        TextSide::Col(name) => {
            out.append(b"text ".as_slice())?;
            show_name(name, out)
        }
    }
}

fn show_name(name: &Name, out: &mut Bytes) -> Result<(), AllocError> {
    let side = match name.side {
        Side::R => b"r{".as_slice(),
        Side::S => b"s{".as_slice(),
    };
    out.append(side)?;
    out.append(name.word.as_slice())?;
    out.append(b"}".as_slice())
}

fn sign(op: Op) -> &'static [u8] {
    match op {
        Op::Eq => b"=".as_slice(),
        Op::Ne => b"!=".as_slice(),
        Op::Lt => b"<".as_slice(),
        Op::Le => b"<=".as_slice(),
        Op::Gt => b">".as_slice(),
        Op::Ge => b">=".as_slice(),
    }
}
