// The object of a creation.
ghost use Rattle.std.specs.Prelude.{◌≡◌, ◌≢◌, IfOk, IfErr, Ok, Err, Some, None, option_map};
ghost use Rattle.serde_json.specs.Find.{get};
ghost use Rattle.serde_json.specs.View.{view};
ghost use Rattle.routes.specs.Creations.{greatest_limit, default_limit, app_by, text_by, number_by, flag_by, settings_by, text_or_none, members_by, value_by, json_of, creation_by};

use crate::fault::{Param, RouteFault};
use serde_json::{Category, Value};
use std::alloc::Global;
use term_core::{App, Text};

/// The numbers and flags of a creation.
#[derive(Clone, Copy, Drop)]
pub struct Settings {
    /// How many answers an event holds where an ask names no number; from 1 to 1,000, by default 1.
    pub chunk: u32,
    /// Whether the pengine is destroyed at the end of a query; by default it is.
    pub destroys: bool,
    /// How many steps each query may make: from 1 to the application's greatest number, by default the
    /// lesser of this and 1,000,000.
    pub limit: u32,
    /// Whether the answers carry the names of the query's variables; by default they don't.
    pub names: bool,
}

/// What the object of a creation asks.
#[derive(Drop)]
pub struct Creation {
    /// The application, by default the sandbox.
    pub app: App,
    /// The text of the first query, where there is one.
    pub ask: Option<Text>,
    /// The text of the query's template.
    pub template: Option<Text>,
    /// The source text of the program, which is empty where none is given.
    pub src_text: Text,
    pub settings: Settings,
}

/// The most steps that a query of the application makes.
fn greatest_limit(app: App) -> u32
    ensures { result ≡ greatest_limit app }
{
    match app {
        App::Sandbox | App::Numbers => 100_000_000,
        App::School => 100_000,
    }
}

fn app_of(given: Option<&Value>) -> Result<App, RouteFault>
    ensures { result ≡ app_by (option_map (λ v. view v.now) given.entry) }
{
    let Some(value) = given else {
        return Ok(App::Sandbox);
    };
    let Some(name) = value.as_str() else {
        return Err(RouteFault::BadParam(Param::Application));
    };
    match App::named(name) {
        Some(app) => Ok(app),
        None => Err(RouteFault::BadParam(Param::Application)),
    }
}

fn text_of(alloc: Global, given: Option<&Value>, param: Param) -> Result<Option<Text>, RouteFault>
    ensures ok { IfOk result (λ t. text_by param (option_map (λ v. view v.now) given.entry) ≡ Ok t) }
    ensures err { IfErr result (λ e. e ≢ RouteFault.Memory → text_by param (option_map (λ v. view v.now) given.entry) ≡ Err e) }
{
    let Some(value) = given else {
        return Ok(None);
    };
    match value.as_str() {
        Some(text) => Ok(Some(Text::from_str(alloc, text)?)),
        None => Err(RouteFault::BadParam(param)),
    }
}

/// An integer from 1 to the greatest.
fn number_of(
    given: Option<&Value>,
    param: Param,
    default: u32,
    greatest: u32,
) -> Result<u32, RouteFault>
    ensures { result ≡ number_by param default greatest (option_map (λ v. view v.now) given.entry) }
{
    let Some(value) = given else {
        return Ok(default);
    };
    match value.as_u64() {
        Some(number) if 1 <= number && number <= u64::from(greatest) => Ok(number as u32),
        _ => Err(RouteFault::BadParam(param)),
    }
}

fn flag_of(given: Option<&Value>, param: Param, default: bool) -> Result<bool, RouteFault>
    ensures { result ≡ flag_by param default (option_map (λ v. view v.now) given.entry) }
{
    let Some(value) = given else {
        return Ok(default);
    };
    match value.as_bool() {
        Some(flag) => Ok(flag),
        None => Err(RouteFault::BadParam(param)),
    }
}

fn settings_of(object: &Value, app: App) -> Result<Settings, RouteFault>
    ensures { result ≡ settings_by app (λ k. get k (view object.now)) }
{
    let greatest = greatest_limit(app);
    let chunk = number_of(object.get("chunk"), Param::Chunk, 1, 1_000)?;
    let destroys = flag_of(object.get("destroy"), Param::Destroy, true)?;
    let limit = number_of(
        object.get("limit"),
        Param::Limit,
        greatest.min(1_000_000),
        greatest,
    )?;
    let names = flag_of(object.get("names"), Param::Names, false)?;
    Ok(Settings {
        chunk,
        destroys,
        limit,
        names,
    })
}

/// What the members of an object ask.
fn members_of(alloc: Global, object: &Value) -> Result<Creation, RouteFault>
    ensures ok { IfOk result (λ c. members_by (λ k. get k (view object.now)) ≡ Ok c) }
    ensures err { IfErr result (λ e. e ≢ RouteFault.Memory → members_by (λ k. get k (view object.now)) ≡ Err e) }
{
    let app = app_of(object.get("application"))?;
    let ask = text_of(alloc, object.get("ask"), Param::Ask)?;
    let settings = settings_of(object, app)?;
    let src_text = text_of(alloc, object.get("src_text"), Param::SrcText)?;
    let template = text_of(alloc, object.get("template"), Param::Template)?;
    Ok(Creation {
        app,
        ask,
        template,
        src_text: src_text.unwrap_or(Text::new(alloc)),
        settings,
    })
}

/// What a JSON value asks.
fn value_of(alloc: Global, value: &Value) -> Result<Creation, RouteFault>
    ensures ok { IfOk result (λ c. value_by (view value.now) ≡ Ok c) }
    ensures err { IfErr result (λ e. e ≢ RouteFault.Memory → value_by (view value.now) ≡ Err e) }
{
    if value.is_object() {
        members_of(alloc, value)
    } else {
        Err(RouteFault::BadParam(Param::Body))
    }
}

/// The JSON value of a body.
#[tactic(auto, using(crate::proofs::Bodies::json_some, crate::proofs::Bodies::json_none))]
fn json_of(alloc: Global, body: &[u8]) -> Result<Value, RouteFault>
    ensures ok { IfOk result (λ v. json_of body.now ≡ Some (view v)) }
    ensures err { IfErr result (λ e. e ≢ RouteFault.Memory → json_of body.now ≡ None) }
    ensures told { IfErr result (λ e. e ≢ RouteFault.Memory → e ≡ RouteFault.BadParam Param.Body) }
{
    match Value::from_slice(alloc, body) {
        Ok(value) => Ok(value),
        Err(error) => match error.classify() {
            Category::Memory => Err(RouteFault::Memory),
            _ => Err(RouteFault::BadParam(Param::Body)),
        },
    }
}

impl Creation {
    /// What a creation with this body asks. `BadParam` of the first wrong member by the byte order of the
    /// names, and of `body` where it is no JSON object: it isn't UTF-8, arrays and objects nest deeper than
    /// 127, a lone surrogate stands in a string, or a number is too great for a float.
    pub fn read(alloc: Global, body: &[u8]) -> Result<Creation, RouteFault>
        ensures ok { IfOk result (λ c. creation_by body.now ≡ Ok c) }
        ensures err { IfErr result (λ e. e ≢ RouteFault.Memory → creation_by body.now ≡ Err e) }
    {
        let value = json_of(alloc, body)?;
        value_of(alloc, &value)
    }
}
