// An order in which EQUs stand after those that they name.
ghost use Rattle.std.specs.Prelude.{◌≤◌, length};

use crate::labels::equation_of;
use crate::names::Names;
use crate::stmt::Stmt;
use sil_base::MAX_CARDS;
use sil_operands::{Expr, Factor};
use std::alloc::{AllocError, Global};

/// For each statement, the EQUs that name its label, and how many labels of EQUs it names itself.
#[derive(Drop)]
struct Uses {
    users: Vec<Vec<u32>>,
    waits: Vec<u32>,
}

impl Uses {
    /// The EQU at this place names the EQU at another.
    fn add(&mut self, place: u32, named: u32) -> Result<(), AllocError> {
        if let Some(users) = self.users.get_mut(named as usize) {
            users.push(place)?;
        }
        if let Some(wait) = self.waits.get_mut(place as usize) {
            *wait = wait.saturating_add(1);
        }
        Ok(())
    }

    /// The EQU at this place has this expression.
    fn add_terms(
        &mut self,
        statements: &[Stmt],
        names: &Names,
        place: u32,
        terms: &Expr,
    ) -> Result<(), AllocError> {
        for term in terms.terms() {
            for factor in term.factors.items() {
                if let Some(named) = named_equation(statements, names, factor) {
                    self.add(place, named)?;
                }
            }
        }
        Ok(())
    }

    fn of(alloc: Global, statements: &[Stmt], names: &Names) -> Result<Uses, AllocError>
        requires { length statements.now ≤ MAX_CARDS }
    {
        let mut uses = Uses {
            users: Vec::new(alloc),
            waits: Vec::new(alloc),
        };
        for _ in statements {
            uses.users.push(Vec::new(alloc))?;
            uses.waits.push(0)?;
        }
        for (place, statement) in statements.iter().enumerate() {
            if let Some(terms) = equation_of(statement) {
                uses.add_terms(statements, names, place as u32, terms)?;
            }
        }
        Ok(uses)
    }
}

/// The place of the EQU that a factor names.
fn named_equation(statements: &[Stmt], names: &Names, factor: &Factor) -> Option<u32> {
    let Factor::Name(name) = factor else {
        return None;
    };
    let named = names.label(name.bytes())?;
    equation_of(statements.get(named as usize)?)?;
    Some(named)
}

/// Whether the EQU at this place waits for nothing more, where it has waited for one label more.
fn is_ready(waits: &mut [u32], place: u32) -> bool {
    match waits.get_mut(place as usize) {
        Some(wait) => {
            *wait = wait.saturating_sub(1);
            *wait == 0
        }
        None => false,
    }
}

/// The places of statements in an order in which each EQU that isn't circular stands after those
/// that it names.
pub(crate) fn schedule(
    alloc: Global,
    statements: &[Stmt],
    names: &Names,
) -> Result<Vec<u32>, AllocError>
    requires { length statements.now ≤ MAX_CARDS }
{
    let Uses { users, mut waits } = Uses::of(alloc, statements, names)?;
    let mut order = Vec::new(alloc);
    for (place, wait) in (0..MAX_CARDS).zip(&waits) {
        if *wait == 0 {
            order.push(place)?;
        }
    }
    for next in 0..statements.len() {
        let Some(users) = order
            .get(next)
            .and_then(|place: &u32| users.get(*place as usize))
        else {
            break;
        };
        for user in users {
            if is_ready(&mut waits, *user) {
                order.push(*user)?;
            }
        }
    }
    Ok(order)
}
