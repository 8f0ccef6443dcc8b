// The value of a function.
ghost use Rattle.std.specs.Prelude.{◌≡◌, IfOk, List, [], ◌∷◌, map, None, true, false};
ghost use Rattle.std.specs.List.{list_any};
ghost use Rattle.lp_values.specs.declared.value.Value.{Value};
ghost use Rattle.lp_values.specs.declared.value.Value.TheVariants.{Null};
ghost use Rattle.lp_values.specs.Kinds.{kind_of};
ghost use Rattle.lp_functions.specs.Table.{kind_of_call};
ghost use Rattle.lp_functions.specs.Choices.{is_choice, is_null};
ghost use Rattle.lp_functions.specs.Applied.{applied, applied_to_one, applied_to_two, applied_to_three, applied_to_more};

use crate::Function;
use crate::addresses::{int_to_ipv4, ipv4_to_int};
use crate::choices::{coalesced, coalesced_pair, coalesced_triple, replaced_if_not_null};
use crate::counting::{index_of_value, last_index_of_value, strcnt_value, strlen_value};
use crate::cutting::{
    extract_extension_value, extract_filename_value, extract_path_value, ltrim_value,
    rest_from_value, rtrim_value, substr_value, trim_value,
};
use crate::making::{
    replace_chr_value, replace_str_value, strcat_value, to_lowercase_value, to_uppercase_value,
};
use crate::moments::{to_date, to_time, to_timestamp};
use crate::numbers::{quantized_value, to_int, to_real};
use crate::texts::{to_string, to_string_by};
use crate::tokens::{
    extract_prefix_value, extract_suffix_value, extract_token_value, extract_value_value,
    token_of_list_value, value_of_query_value,
};
use crate::urls::{url_escape, url_unescape};
use lp_values::{Value, ValueList, add, div, modulo, mul, sub};
use std::alloc::{AllocError, Global};

/// The value of a function over arguments: NULL where it doesn't take them.
pub fn apply(alloc: Global, function: Function, arguments: &ValueList) -> Result<Value, AllocError>
    ensures value { IfOk result (λ value. value ≡ applied function arguments.now) }
    ensures no_row { (values : List Value) → kind_of_call function (map kind_of values) ≡ None → applied function values ≡ Null }
    ensures null { is_choice function ≡ false → (values : List Value) → list_any is_null values ≡ true → applied function values ≡ Null }
{
    apply_to(alloc, function, arguments.as_slice())
}

fn apply_to(alloc: Global, function: Function, arguments: &[Value]) -> Result<Value, AllocError>
    ensures { IfOk result (λ value. value ≡ applied function arguments.now) }
{
    match arguments {
        [] => Ok(Value::Null),
        [a] => apply_to_one(alloc, function, a),
        [a, b] => apply_to_two(alloc, function, a, b),
        [a, b, c] => apply_to_three(alloc, function, a, b, c),
        _ => apply_to_more(alloc, function, arguments),
    }
}

/// The value of a function over one argument.
pub fn apply_to_one(alloc: Global, function: Function, a: &Value) -> Result<Value, AllocError>
    ensures { IfOk result (λ value. value ≡ applied_to_one function a.now) }
{
    match function {
        Function::Strlen => Ok(strlen_value(a)),
        Function::ToLowercase => to_lowercase_value(alloc, a),
        Function::ToUppercase => to_uppercase_value(alloc, a),
        Function::Trim => trim_value(alloc, a),
        Function::Ltrim => ltrim_value(alloc, a),
        Function::Rtrim => rtrim_value(alloc, a),
        Function::ExtractFilename => extract_filename_value(alloc, a),
        Function::ExtractPath => extract_path_value(alloc, a),
        Function::ExtractExtension => extract_extension_value(alloc, a),
        Function::Urlescape => url_escape(alloc, a),
        Function::Urlunescape => url_unescape(alloc, a),
        Function::ToString => to_string(alloc, a),
        Function::ToInt => Ok(to_int(a)),
        Function::ToReal => Ok(to_real(a)),
        Function::ToDate => Ok(to_date(a)),
        Function::ToTime => Ok(to_time(a)),
        Function::Ipv4ToInt => Ok(ipv4_to_int(a)),
        Function::IntToIpv4 => int_to_ipv4(alloc, a),
        _ => Ok(Value::Null),
    }
}

/// The value of a function over two arguments.
pub fn apply_to_two(
    alloc: Global,
    function: Function,
    a: &Value,
    b: &Value,
) -> Result<Value, AllocError>
    ensures { IfOk result (λ value. value ≡ applied_to_two function a.now b.now) }
{
    match function {
        Function::Add => Ok(add(a, b)),
        Function::Sub => Ok(sub(a, b)),
        Function::Mul => Ok(mul(a, b)),
        Function::Div => Ok(div(a, b)),
        Function::Mod => Ok(modulo(a, b)),
        Function::Quantize => Ok(quantized_value(a, b)),
        Function::Strcnt => Ok(strcnt_value(a, b)),
        Function::IndexOf => Ok(index_of_value(a, b)),
        Function::LastIndexOf => Ok(last_index_of_value(a, b)),
        Function::Strcat => strcat_value(alloc, a, b),
        Function::Substr => rest_from_value(alloc, a, b),
        Function::ExtractToken => token_of_list_value(alloc, a, b),
        Function::ExtractValue => value_of_query_value(alloc, a, b),
        Function::ToString => to_string_by(alloc, a, b),
        Function::ToTimestamp => Ok(to_timestamp(a, b)),
        Function::Coalesce | Function::ReplaceIfNull => coalesced_pair(alloc, a, b),
        Function::ReplaceIfNotNull => replaced_if_not_null(alloc, a, b),
        _ => Ok(Value::Null),
    }
}

/// The value of a function over three arguments.
pub fn apply_to_three(
    alloc: Global,
    function: Function,
    a: &Value,
    b: &Value,
    c: &Value,
) -> Result<Value, AllocError>
    ensures { IfOk result (λ value. value ≡ applied_to_three function a.now b.now c.now) }
{
    match function {
        Function::ReplaceStr => replace_str_value(alloc, a, b, c),
        Function::ReplaceChr => replace_chr_value(alloc, a, b, c),
        Function::Substr => substr_value(alloc, a, b, c),
        Function::ExtractToken => extract_token_value(alloc, a, b, c),
        Function::ExtractValue => extract_value_value(alloc, a, b, c),
        Function::ExtractPrefix => extract_prefix_value(alloc, a, b, c),
        Function::ExtractSuffix => extract_suffix_value(alloc, a, b, c),
        Function::Coalesce => coalesced_triple(alloc, a, b, c),
        _ => Ok(Value::Null),
    }
}

fn apply_to_more(
    alloc: Global,
    function: Function,
    arguments: &[Value],
) -> Result<Value, AllocError>
    ensures { IfOk result (λ value. value ≡ applied_to_more function arguments.now) }
{
    match function {
        Function::Coalesce => coalesced(alloc, arguments),
        _ => Ok(Value::Null),
    }
}
