//! Makes the page of a screen of its parts: the constant page, the script of a style, and the parts that give orders.
//!
//! `screen` calls it once at its start. The page leaves its `html` element open, so what follows it is a part of it.
//! specs/Page says which bytes the page has.

ghost use Rattle.smi_program.specs.declared.page.TheConstants.{PAGE};
ghost use Rattle.std.specs.Prelude.{◌≡◌, ◌++◌, IfOk};
ghost use Rattle.smi_program.specs.Page.{page_with_orders, page_with_style, script_of, with_orders};

use crate::orders::ORDERS;
use crate::page::PAGE;
use std::alloc::{AllocError, Global};

/// Returns the `script` element that has the key. Fails if memory was refused.
///
/// `key` is put between quotes as it is, so it may have no quote, no backslash and no `<`. `screen` makes it: it is
/// `Bearer ` and 32 hexadecimal digits, or empty if people have to type a token.
fn script_of(alloc: Global, key: &[u8]) -> Result<Vec<u8>, AllocError>
    ensures { IfOk result (λ text. text.items ≡ script_of key.now) }
{
    let mut text = Vec::from_slice(alloc, b"<script>const KEY = \"")?;
    text.extend_from_slice(key)?;
    text.extend_from_slice(b"\";</script>\n")?;
    Ok(text)
}

/// Returns a page, the script of its key, and the parts that give orders. Fails if memory was refused.
fn with_orders(alloc: Global, page: &[u8], key: &[u8], orders: &[u8]) -> Result<Vec<u8>, AllocError>
    ensures { IfOk result (λ text. text.items ≡ with_orders page.now key.now orders.now) }
{
    let script = script_of(alloc, key)?;
    let mut text = Vec::from_slice(alloc, page)?;
    text.extend_from_slice(script.as_slice())?;
    text.extend_from_slice(orders)?;
    Ok(text)
}

/// Returns a page of the screen as one that may give orders by this key, which is `Bearer ` and 32 hexadecimal digits,
/// or empty if people have to type a token.
///
/// Fails only if memory ran out, which tests alone see.
pub fn page_with_orders(alloc: Global, page: &[u8], key: &[u8]) -> Result<Vec<u8>, AllocError>
    ensures { IfOk result (λ r. r.items ≡ page_with_orders page.now key.now) }
{
    with_orders(alloc, page, key, ORDERS.as_bytes())
}

/// Returns a text with another one after it. Fails if memory was refused.
fn joined(alloc: Global, text: &[u8], more: &[u8]) -> Result<Vec<u8>, AllocError>
    ensures { IfOk result (λ r. r.items ≡ text.now ++ more.now) }
{
    let mut whole = Vec::from_slice(alloc, text)?;
    whole.extend_from_slice(more)?;
    Ok(whole)
}

/// Returns the page, and after it a style. `style` is one whole `script` element, as `style_script` of `style` makes
/// it.
///
/// Fails only if memory ran out, which tests alone see.
pub fn page_with_style(alloc: Global, style: &[u8]) -> Result<Vec<u8>, AllocError>
    ensures { IfOk result (λ r. r.items ≡ page_with_style style.now) }
{
    joined(alloc, PAGE.as_bytes(), style)
}

/// Returns the bytes of the constant page, for a screen without a style file.
pub fn page_bytes() -> &'static [u8]
    ensures { result.now ≡ PAGE.now }
{
    PAGE.as_bytes()
}
