//! The concrete trees of texts. The number of a token stands before what begins with it, and a part of a statement has braces.
use case_text::Answer;
use concrete_syntax::{
    Action, Assignment, Call, Declaration, Division, Divisor, End, Expression, ForLoop, Function,
    Items, Link, Name, Operand, OperandKind, Operator, Otherwise, Parameters, Part, Prefix,
    Prelude, Program, Simple, Start, Statement, StatementKind, Step, Tail, Value,
};

/// Adds the tree.
pub fn push_tree(tree: &Program, answer: &mut Answer) {
    for prelude in &tree.preludes {
        answer.push(match prelude {
            Prelude::TypedefBool => "bool; ",
            Prelude::ExternCall { void: false } => "call(); ",
            Prelude::ExternCall { void: true } => "call(void); ",
        });
    }
    for function in &tree.functions {
        push_function(function, answer);
    }
    answer.push(if tree.void {
        "main(void) {"
    } else {
        "main() {"
    });
    push_items(&tree.items, answer);
    answer.push("}");
}

/// Adds a function, and the number of the token behind it.
fn push_function(function: &Function, answer: &mut Answer) {
    answer.push(if function.valued { "int " } else { "void " });
    push_name(&function.name, answer);
    answer.push("(");
    match &function.parameters {
        Parameters::Nothing { void } => answer.push(if *void { "void" } else { "" }),
        Parameters::Named { first, more } => {
            push_name(first, answer);
            for name in more {
                answer.push(", ");
                push_name(name, answer);
            }
        }
    }
    answer.push(") {");
    push_items(&function.items, answer);
    answer.push("} ");
    push_at(function.behind, answer);
}

/// Adds the number of a token.
fn push_at(at: usize, answer: &mut Answer) {
    answer.push_number(at as i128);
    answer.push(":");
}

#[cycle(statements)]
fn push_items(items: &Items, answer: &mut Answer) {
    match items {
        Items::Ended => {}
        Items::Declaration { first, rest } => {
            push_declaration(first, answer);
            answer.push("; ");
            push_items(rest, answer);
        }
        Items::Statement { first, rest } => {
            push_statement(first, answer);
            answer.push(match **rest {
                Items::Ended => "",
                _ => " ",
            });
            push_items(rest, answer);
        }
    }
}

#[cycle(statements)]
fn push_statement(statement: &Statement, answer: &mut Answer) {
    push_at(statement.at, answer);
    match &statement.kind {
        StatementKind::Simple(simple) => {
            push_simple(simple, answer);
            answer.push(";");
        }
        StatementKind::Calls(call) => {
            push_call(call, answer);
            answer.push(";");
        }
        StatementKind::Gives { target, call } => {
            push_name(target, answer);
            answer.push(" = ");
            push_call(call, answer);
            answer.push(";");
        }
        StatementKind::Skip => answer.push(";"),
        StatementKind::Braces(items) => {
            answer.push("{");
            push_items(items, answer);
            answer.push("}");
        }
        StatementKind::Conditional { test, part, other } => {
            push_asked("if", test, answer);
            push_part(part, answer);
            push_other(other, answer);
        }
        StatementKind::While { test, body } => {
            push_asked("while", test, answer);
            push_part(body, answer);
        }
        StatementKind::Do { body, end, test } => {
            answer.push("do");
            push_part(body, answer);
            answer.push(" ");
            push_at(*end, answer);
            push_asked("while", test, answer);
            answer.push(";");
        }
        StatementKind::For(parts) => push_for(parts, answer),
        StatementKind::Return(value) => {
            answer.push("return");
            push_optional(" ", value, answer);
            answer.push(";");
        }
        StatementKind::Break => answer.push("break;"),
        StatementKind::Continue => answer.push("continue;"),
    }
}

/// Adds a part of a statement.
#[cycle(statements)]
fn push_part(part: &Statement, answer: &mut Answer) {
    answer.push(" {");
    push_statement(part, answer);
    answer.push("}");
}

#[cycle(statements)]
fn push_other(other: &Otherwise, answer: &mut Answer) {
    if let Otherwise::Else(part) = other {
        answer.push(" else");
        push_part(part, answer);
    }
}

#[cycle(statements)]
fn push_for(parts: &ForLoop, answer: &mut Answer) {
    answer.push("for (");
    match &parts.start {
        Start::Nothing => {}
        Start::Simple(simple) => push_simple(simple, answer),
        Start::Declaration(declaration) => push_declaration(declaration, answer),
    }
    answer.push(";");
    push_optional(" ", &parts.test, answer);
    answer.push(";");
    if let Some(step) = &parts.step {
        answer.push(" ");
        push_simple(step, answer);
    }
    answer.push(")");
    push_part(&parts.body, answer);
}

fn push_call(call: &Call, answer: &mut Answer) {
    push_name(&call.function, answer);
    answer.push("(");
    for (place, argument) in call.arguments.iter().enumerate() {
        answer.push(if place > 0 { ", " } else { "" });
        push_expression(argument, answer);
    }
    answer.push(")");
}

fn push_declaration(declaration: &Declaration, answer: &mut Answer) {
    answer.push("int ");
    push_declared(&declaration.part, answer);
    for part in &declaration.more {
        answer.push(", ");
        push_declared(part, answer);
    }
}

fn push_declared(part: &Part, answer: &mut Answer) {
    push_name(&part.declared, answer);
    if let Some(value) = &part.initialiser {
        answer.push(" = ");
        match value {
            Value::Expression(expression) => push_expression(expression, answer),
            Value::Call(call) => push_call(call, answer),
        }
    }
}

fn push_name(name: &Name, answer: &mut Answer) {
    push_at(name.at, answer);
    answer.push_bytes(&name.bytes);
}

fn push_simple(simple: &Simple, answer: &mut Answer) {
    match simple {
        Simple::Acts { name, action } => {
            push_name(name, answer);
            push_action(action, answer);
        }
        Simple::StepsBefore { at, step, name } => {
            push_at(*at, answer);
            answer.push(sign_of_step(*step));
            push_name(name, answer);
        }
    }
}

fn push_action(action: &Action, answer: &mut Answer) {
    match action {
        Action::Assigns { assignment, value } => {
            answer.push(match assignment {
                Assignment::Assign => " = ",
                Assignment::Add => " += ",
                Assignment::Subtract => " -= ",
                Assignment::Multiply => " *= ",
            });
            push_expression(value, answer);
        }
        Action::Steps(step) => answer.push(sign_of_step(*step)),
    }
}

fn sign_of_step(step: Step) -> &'static str {
    match step {
        Step::Increment => "++",
        Step::Decrement => "--",
    }
}

/// Adds the word and the test in parentheses.
fn push_asked(word: &str, test: &Expression, answer: &mut Answer) {
    answer.push(word);
    answer.push(" (");
    push_expression(test, answer);
    answer.push(")");
}

/// Adds the expression behind the text, where there is one.
fn push_optional(front: &str, expression: &Option<Expression>, answer: &mut Answer) {
    if let Some(expression) = expression {
        answer.push(front);
        push_expression(expression, answer);
    }
}

fn push_expression(expression: &Expression, answer: &mut Answer) {
    push_operand(&expression.operand, answer);
    push_tail(&expression.tail, answer);
}

#[cycle(operands)]
fn push_tail(tail: &Tail, answer: &mut Answer) {
    if let Tail::Further { link, rest } = tail {
        push_link(link, answer);
        push_tail(rest, answer);
    }
}

#[cycle(operands)]
fn push_link(link: &Link, answer: &mut Answer) {
    match link {
        Link::Operation { op, operand } => {
            answer.push(sign_of(*op));
            push_operand(operand, answer);
        }
        Link::Division { division, divisor } => push_division(*division, divisor, answer),
    }
}

fn push_division(division: Division, divisor: &Divisor, answer: &mut Answer) {
    answer.push(match division {
        Division::Quotient => " / ",
        Division::Remainder => " % ",
    });
    answer.push(if divisor.negative { "-" } else { "" });
    push_at(divisor.at, answer);
    answer.push_number(i128::from(divisor.size));
}

#[cycle(operands)]
fn push_operand(operand: &Operand, answer: &mut Answer) {
    push_at(operand.at, answer);
    match &operand.kind {
        OperandKind::Number(number) => answer.push_number(i128::from(*number)),
        OperandKind::Name(bytes) => answer.push_bytes(bytes),
        OperandKind::Truth(truth) => answer.push(if *truth { "true" } else { "false" }),
        OperandKind::Unknown => answer.push("?"),
        OperandKind::Call => answer.push("call()"),
        OperandKind::Signed { prefix, operand } => {
            answer.push(match prefix {
                Prefix::Plus => "+",
                Prefix::Minus => "-",
                Prefix::Not => "!",
            });
            push_operand(operand, answer);
        }
        OperandKind::Parentheses { operand, tail } => {
            answer.push("(");
            push_operand(operand, answer);
            push_tail(tail, answer);
            answer.push(")");
        }
        OperandKind::Range { low, high } => {
            answer.push("[");
            push_end(low, answer);
            answer.push(", ");
            push_end(high, answer);
            answer.push("]");
        }
    }
}

fn push_end(end: &End, answer: &mut Answer) {
    answer.push(if end.negative { "-" } else { "" });
    answer.push_number_or(end.size.map(i128::from), "inf");
}

fn sign_of(op: Operator) -> &'static str {
    match op {
        Operator::Or => " || ",
        Operator::And => " && ",
        Operator::Equal => " == ",
        Operator::NotEqual => " != ",
        Operator::Less => " < ",
        Operator::LessEqual => " <= ",
        Operator::Greater => " > ",
        Operator::GreaterEqual => " >= ",
        Operator::Add => " + ",
        Operator::Subtract => " - ",
        Operator::Multiply => " * ",
    }
}
