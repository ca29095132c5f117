//! The places that the nodes of a tree have, in the order of the text.

use ob_tree::{
    Decl, Designator, Element, Expr, FormalPars, Heading, IdentDef, Import, Module, Pos, Qualident,
    Selector, Stmt, TypeNode,
};
use std::alloc::{AllocError, Global};

pub fn at(line: u32, col: u32) -> Pos {
    Pos { line, col }
}

/// Where a statement stands.
pub fn place_of_statement(statement: &Stmt) -> Pos {
    match statement {
        Stmt::Empty => at(0, 0),
        Stmt::Call(designator) => designator.ident.pos(),
        Stmt::Assign { pos, .. } => *pos,
        Stmt::If { pos, .. } => *pos,
        Stmt::Case { pos, .. } => *pos,
        Stmt::While { pos, .. } => *pos,
        Stmt::Repeat { pos, .. } => *pos,
        Stmt::For { pos, .. } => *pos,
        Stmt::Loop { pos, .. } => *pos,
        Stmt::Exit(pos) => *pos,
        Stmt::Return { pos, .. } => *pos,
        Stmt::With { pos, .. } => *pos,
    }
}

fn place_of_selector(selector: &Selector) -> Pos {
    match selector {
        Selector::Field { pos, .. } => *pos,
        Selector::Index { pos, .. } => *pos,
        Selector::Deref(pos) => *pos,
        Selector::Call { pos, .. } => *pos,
    }
}

/// Where an expression stands: a designator where its last selector does, if it has one, and a
/// chain where its last operator does.
pub fn place_of(value: &Expr) -> Pos {
    match value {
        Expr::Designator(designator) => match designator.selectors.as_slice() {
            [] => designator.ident.pos(),
            [.., last] => place_of_selector(last),
        },
        Expr::Int { pos, .. } => *pos,
        Expr::Char { pos, .. } => *pos,
        Expr::Str { pos, .. } => *pos,
        Expr::Nil(pos) => *pos,
        Expr::Set { pos, .. } => *pos,
        Expr::Paren { pos, .. } => *pos,
        Expr::Not { pos, .. } => *pos,
        Expr::Signed { pos, .. } => *pos,
        Expr::Chain { tails, .. } => match tails.as_slice() {
            [] => at(0, 0),
            [.., last] => last.pos,
        },
        Expr::Relate { pos, .. } => *pos,
    }
}

fn place_of_type(node: &TypeNode) -> Pos {
    match node {
        TypeNode::Named(name) => match &name.qualifier {
            Some(qualifier) => qualifier.pos,
            None => name.ident.pos,
        },
        TypeNode::Array { pos, .. } => *pos,
        TypeNode::Record { pos, .. } => *pos,
        TypeNode::Pointer { pos, .. } => *pos,
        TypeNode::Procedure { pos, .. } => *pos,
    }
}

// Of a declared name and of its mark.
fn put_name(places: &mut Vec<Pos>, name: &IdentDef) -> Result<(), AllocError> {
    places.push(name.ident.pos)?;
    places.push(name.mark_pos)?;
    Ok(())
}

// Of the qualifier, where there is one, and of the name behind it.
fn put_qualified(places: &mut Vec<Pos>, name: &Qualident) -> Result<(), AllocError> {
    if let Some(qualifier) = &name.qualifier {
        places.push(qualifier.pos)?;
    }
    places.push(name.ident.pos)?;
    Ok(())
}

fn put_import(places: &mut Vec<Pos>, import: &Import) -> Result<(), AllocError> {
    places.push(import.ident.pos)?;
    if let Some(target) = &import.target {
        places.push(target.pos)?;
    }
    Ok(())
}

// Of each element, or of its two ends.
fn put_elements(places: &mut Vec<Pos>, elements: &[Element]) -> Result<(), AllocError> {
    for element in elements {
        places.push(place_of(&element.low))?;
        if let Some(high) = &element.high {
            places.push(place_of(high))?;
        }
    }
    Ok(())
}

// Of the first name, and of each selector with the name, the index or the parameters in it.
fn put_designator(places: &mut Vec<Pos>, designator: &Designator) -> Result<(), AllocError> {
    places.push(designator.ident.pos())?;
    for selector in designator.selectors.as_slice() {
        places.push(place_of_selector(selector))?;
        match selector {
            Selector::Field { ident, .. } => {
                places.push(ident.pos())?;
            }
            Selector::Index { index, .. } => {
                places.push(place_of(index))?;
            }
            Selector::Deref(_) => {}
            Selector::Call { arguments, .. } => {
                for argument in arguments.as_slice() {
                    places.push(place_of(argument))?;
                }
            }
        }
    }
    Ok(())
}

// Of an expression, and of its operands.
fn put_value(places: &mut Vec<Pos>, value: &Expr) -> Result<(), AllocError> {
    match value {
        Expr::Designator(designator) => put_designator(places, designator)?,
        Expr::Set { pos, elements } => {
            places.push(*pos)?;
            put_elements(places, elements.as_slice())?;
        }
        Expr::Paren { pos, inner } => {
            places.push(*pos)?;
            places.push(place_of(inner.get()))?;
        }
        Expr::Not { pos, operand } => {
            places.push(*pos)?;
            places.push(place_of(operand.get()))?;
        }
        Expr::Signed { pos, operand, .. } => {
            places.push(*pos)?;
            places.push(place_of(operand.get()))?;
        }
        Expr::Chain { operand, tails } => {
            places.push(place_of(operand.get()))?;
            for tail in tails.as_slice() {
                places.push(tail.pos)?;
                places.push(place_of(&tail.operand))?;
            }
        }
        Expr::Relate {
            left,
            pos,
            right,
            ..
        } => {
            places.push(place_of(left.get()))?;
            places.push(*pos)?;
            places.push(place_of(right.get()))?;
        }
        _ => {
            places.push(place_of(value))?;
        }
    }
    Ok(())
}

// Of each statement, and of the variable of an assignment.
fn put_body(places: &mut Vec<Pos>, body: &[Stmt]) -> Result<(), AllocError> {
    for statement in body {
        if let Stmt::Assign { target, .. } = statement {
            places.push(target.ident.pos())?;
        }
        places.push(place_of_statement(statement))?;
    }
    Ok(())
}

// Of a statement that has no statements in it, and of its parts.
fn put_plain(places: &mut Vec<Pos>, statement: &Stmt) -> Result<(), AllocError> {
    match statement {
        Stmt::Call(designator) => put_designator(places, designator)?,
        Stmt::Assign { target, pos, value } => {
            put_designator(places, target)?;
            places.push(*pos)?;
            put_value(places, value)?;
        }
        Stmt::Return { pos, value } => {
            places.push(*pos)?;
            if let Some(value) = value {
                places.push(place_of(value))?;
            }
        }
        _ => {
            places.push(place_of_statement(statement))?;
        }
    }
    Ok(())
}

// Of a loop and its parts.
fn put_loop(places: &mut Vec<Pos>, statement: &Stmt) -> Result<(), AllocError> {
    match statement {
        Stmt::While { pos, test, body } => {
            places.push(*pos)?;
            places.push(place_of(test))?;
            put_body(places, body.as_slice())
        }
        Stmt::Repeat { pos, body, test } => {
            places.push(*pos)?;
            put_body(places, body.as_slice())?;
            places.push(place_of(test))?;
            Ok(())
        }
        Stmt::For {
            pos,
            variable,
            start,
            end,
            step,
            body,
        } => {
            places.push(*pos)?;
            places.push(variable.pos())?;
            places.push(place_of(start.get()))?;
            places.push(place_of(end.get()))?;
            if let Some(step) = step {
                places.push(place_of(step.get()))?;
            }
            put_body(places, body.as_slice())
        }
        Stmt::Loop { pos, body } => {
            places.push(*pos)?;
            put_body(places, body.as_slice())
        }
        _ => put_plain(places, statement),
    }
}

// Of a statement and its parts.
fn put_statement(places: &mut Vec<Pos>, statement: &Stmt) -> Result<(), AllocError> {
    match statement {
        Stmt::If {
            pos,
            branches,
            otherwise,
        } => {
            places.push(*pos)?;
            for branch in branches.as_slice() {
                places.push(place_of(&branch.test))?;
                put_body(places, branch.body.as_slice())?;
            }
            if let Some(body) = otherwise {
                put_body(places, body.as_slice())?;
            }
            Ok(())
        }
        Stmt::Case {
            pos,
            value,
            cases,
            otherwise,
        } => {
            places.push(*pos)?;
            places.push(place_of(value.get()))?;
            for case in cases.as_slice() {
                put_elements(places, case.labels.as_slice())?;
                put_body(places, case.body.as_slice())?;
            }
            if let Some(body) = otherwise {
                put_body(places, body.as_slice())?;
            }
            Ok(())
        }
        Stmt::With {
            pos,
            branches,
            otherwise,
        } => {
            places.push(*pos)?;
            for branch in branches.as_slice() {
                put_qualified(places, &branch.guard.variable)?;
                put_qualified(places, &branch.guard.target)?;
                put_body(places, branch.body.as_slice())?;
            }
            if let Some(body) = otherwise {
                put_body(places, body.as_slice())?;
            }
            Ok(())
        }
        _ => put_loop(places, statement),
    }
}

// Of the parameters, of their types, and of the type of the result.
fn put_parameters(places: &mut Vec<Pos>, parameters: &FormalPars) -> Result<(), AllocError> {
    for section in parameters.sections.as_slice() {
        for name in section.names.as_slice() {
            places.push(name.pos)?;
        }
        places.push(place_of_type(&section.node))?;
    }
    if let Some(result_type) = &parameters.result_type {
        put_qualified(places, result_type)?;
    }
    Ok(())
}

// Of a type and its parts.
fn put_type(places: &mut Vec<Pos>, node: &TypeNode) -> Result<(), AllocError> {
    match node {
        TypeNode::Named(name) => put_qualified(places, name)?,
        TypeNode::Array {
            pos,
            lengths,
            element,
        } => {
            places.push(*pos)?;
            for length in lengths.as_slice() {
                places.push(place_of(length))?;
            }
            places.push(place_of_type(element.get()))?;
        }
        TypeNode::Record { pos, base, fields } => {
            places.push(*pos)?;
            if let Some(base) = base {
                put_qualified(places, base)?;
            }
            for list in fields.as_slice() {
                for name in list.names.as_slice() {
                    put_name(places, name)?;
                }
                places.push(place_of_type(&list.node))?;
            }
        }
        TypeNode::Pointer { pos, base } => {
            places.push(*pos)?;
            places.push(place_of_type(base.get()))?;
        }
        TypeNode::Procedure { pos, parameters } => {
            places.push(*pos)?;
            put_parameters(places, parameters)?;
        }
    }
    Ok(())
}

fn put_heading(places: &mut Vec<Pos>, heading: &Heading) -> Result<(), AllocError> {
    if let Some(receiver) = &heading.receiver {
        places.push(receiver.ident.pos)?;
        places.push(receiver.owner.pos)?;
    }
    put_name(places, &heading.name)?;
    put_parameters(places, &heading.parameters)
}

// Of a constant, a type, variables, or the heading of a procedure.
fn put_outer(places: &mut Vec<Pos>, decl: &Decl) -> Result<(), AllocError> {
    match decl {
        Decl::Constant { name, value } => {
            put_name(places, name)?;
            put_value(places, value)
        }
        Decl::NamedType { name, node } => {
            put_name(places, name)?;
            put_type(places, node)
        }
        Decl::Variables { names, node } => {
            for name in names.as_slice() {
                put_name(places, name)?;
            }
            put_type(places, node)
        }
        Decl::Procedure { heading, .. } => put_heading(places, heading),
        Decl::Forward(heading) => put_heading(places, heading),
    }
}

fn put_declaration(places: &mut Vec<Pos>, decl: &Decl) -> Result<(), AllocError> {
    put_outer(places, decl)?;
    if let Decl::Procedure {
        decls,
        body,
        closing,
        ..
    } = decl
    {
        for inner in decls.as_slice() {
            put_outer(places, inner)?;
        }
        put_body(places, body.as_slice())?;
        places.push(closing.pos)?;
    }
    Ok(())
}

/// The places of a module's nodes and names, down to the parts of each statement, type and value.
pub fn places_of_module(alloc: Global, tree: &Module) -> Result<Vec<Pos>, AllocError> {
    let mut places = Vec::new(alloc);
    places.push(tree.name.pos)?;
    for import in tree.imports.as_slice() {
        put_import(&mut places, import)?;
    }
    for decl in tree.decls.as_slice() {
        put_declaration(&mut places, decl)?;
    }
    for statement in tree.body.as_slice() {
        put_statement(&mut places, statement)?;
    }
    places.push(tree.closing.pos)?;
    Ok(places)
}
