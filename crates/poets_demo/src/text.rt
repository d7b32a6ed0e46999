//! The text of the demonstration.
ghost use Rattle.std.specs.Prelude.{◌≡◌, ◌≤◌, IfOk, OnOk, Some, length, string_bytes};
ghost use Rattle.poets_value.specs.Limits.{longest_text, most_sales};
ghost use Rattle.poets_demo.specs.Text.{portfolio, sale_lines, sale_name, section};
ghost use Rattle.poets_demo.specs.Text as spec;
ghost use Rattle.poets_value.specs.code.Texts.{Puts};
ghost use Rattle.poets_demo.specs.code.Putting.{lines_of_sales, more_names, next_name};

use poets_value::Memory;
use std::alloc::Global;
use std::fmt;

// How many clerks work.
const CLERKS: u32 = 8;

// What all clerks share: the agents, the kinds, the contract of a sale, and the report of what is paid.
const BOOK: &str = "agents shop, buyer;;\n\
    kinds Oil, USD;;\n\
    template sale(s: Agent, b: Agent, n: Int) = \
    transmit(x, y, r, t | x = s and y = b and r = res(n, Oil)). \
    transmit(u, v, p, w | u = b and v = s and p = res(3 * n, USD) and w <= t + 30). \
    Success;;\n\
    report paid(): Int = fold m = 0 with (x, y, r, t) in \
    if kind(r) = USD then m + amount(r) else m end;;\n";

// The name of a clerk's sale: `c1_2`.
#[derive(Clone, Copy)]
struct SaleName {
    clerk: u32,
    sale: u32,
}

impl fmt::Display for SaleName {
    ghost output = { λ n. Some (sale_name n.clerk n.sale) };

    fn fmt<W: fmt::Write>(&self, f: &mut fmt::Formatter<W>) -> fmt::Result {
        let clerk = self.clerk;
        let sale = self.sale;
        write!(f, "c{clerk}_{sale}")
    }
}

/// The text of a session in which eight clerks make so many sales each: what it declares, and then
/// the commands of each clerk.
///
/// In each sale the buyer pays twice: at first too little, which the contract refuses, and then the
/// price. A clerk's last command asks what was paid for each of the clerk's sales.
pub fn demo_text(alloc: Global, sales: u32) -> Result<String, Memory>
    requires { (1 ≤ sales) × (sales ≤ most_sales) }
    ensures text { IfOk result (λ text. string_bytes text ≡ spec.demo_text sales) }
    ensures short { IfOk result (λ text. length (string_bytes text) ≤ longest_text) }
{
    let mut text = String::from_str(alloc, BOOK)?;
    for clerk in 1..=CLERKS {
        put_section(&mut text, clerk, sales)?;
    }
    Ok(text)
}

// Puts what a clerk does.
fn put_section(text: &mut String, clerk: u32, sales: u32) -> Result<(), Memory>
    requires { (1 ≤ sales) × (sales ≤ most_sales) }
    ensures { OnOk result (Puts text.old text.new (section clerk sales)) }
{
    writeln!(text, "clerk;;")?;
    put_sales(text, clerk, sales)?;
    put_portfolio(text, clerk, sales)
}

// Puts the lines of a clerk's sales.
fn put_sales(text: &mut String, clerk: u32, sales: u32) -> Result<(), Memory>
    requires { (1 ≤ sales) × (sales ≤ most_sales) }
    ensures { OnOk result (Puts text.old text.new (lines_of_sales clerk sales)) }
{
    for sale in 1..=sales {
        put_sale(text, clerk, sale)?;
    }
    Ok(())
}

// Puts the lines of a sale.
fn put_sale(text: &mut String, clerk: u32, sale: u32) -> Result<(), Memory>
    requires { sale ≤ most_sales }
    ensures { OnOk result (Puts text.old text.new (sale_lines clerk sale)) }
{
    let name = SaleName { clerk, sale };
    let price = 3 * sale;
    writeln!(text, "register {name} = sale(shop, buyer, {sale});;")?;
    writeln!(text, "transmit {name} shop buyer {sale} Oil @2006-05-03;;")?;
    writeln!(text, "transmit {name} buyer shop {sale} USD @2006-05-04;;")?;
    writeln!(text, "transmit {name} buyer shop {price} USD @2006-06-02;;")?;
    writeln!(text, "end {name};;")?;
    Ok(())
}

// Puts the portfolio of a clerk's sales.
fn put_portfolio(text: &mut String, clerk: u32, sales: u32) -> Result<(), Memory>
    requires { 1 ≤ sales }
    ensures { OnOk result (Puts text.old text.new (portfolio clerk sales)) }
{
    let first = SaleName { clerk, sale: 1 };
    write!(text, "portfolio paid() over {first}")?;
    put_more_names(text, clerk, sales)?;
    writeln!(text, ";;")?;
    Ok(())
}

// Puts the names of a clerk's sales but the first, each behind a comma.
fn put_more_names(text: &mut String, clerk: u32, sales: u32) -> Result<(), Memory>
    requires { 1 ≤ sales }
    ensures { OnOk result (Puts text.old text.new (more_names clerk sales)) }
{
    for sale in 2..=sales {
        put_next_name(text, clerk, sale)?;
    }
    Ok(())
}

// Puts a sale's name behind a comma.
fn put_next_name(text: &mut String, clerk: u32, sale: u32) -> Result<(), Memory>
    ensures { OnOk result (Puts text.old text.new (next_name clerk sale)) }
{
    let name = SaleName { clerk, sale };
    write!(text, ", {name}")?;
    Ok(())
}
