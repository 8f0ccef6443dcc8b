// The functions, and their names.
ghost use Rattle.std.specs.Prelude.{◌≡◌, Some};
ghost use Rattle.lp_functions.specs.declared.function.Function.{Function};
ghost use Rattle.lp_functions.specs.Names.{name_of, named};

/// A function of the query language. Aggregates, GROUPING and those of the moment are none of these.
#[derive(Clone, Copy, Debug, PartialEq, Eq)]
pub enum Function {
    Add,
    Sub,
    Mul,
    Div,
    Mod,
    Quantize,
    Strcat,
    Strlen,
    Strcnt,
    Substr,
    IndexOf,
    LastIndexOf,
    ReplaceStr,
    ReplaceChr,
    ToLowercase,
    ToUppercase,
    Trim,
    Ltrim,
    Rtrim,
    ExtractToken,
    ExtractValue,
    ExtractPrefix,
    ExtractSuffix,
    ExtractFilename,
    ExtractPath,
    ExtractExtension,
    Urlescape,
    Urlunescape,
    ToString,
    ToInt,
    ToReal,
    ToTimestamp,
    ToDate,
    ToTime,
    Coalesce,
    ReplaceIfNull,
    ReplaceIfNotNull,
    Ipv4ToInt,
    IntToIpv4,
}

const ALL: [Function; 39] = [
    Function::Add,
    Function::Sub,
    Function::Mul,
    Function::Div,
    Function::Mod,
    Function::Quantize,
    Function::Strcat,
    Function::Strlen,
    Function::Strcnt,
    Function::Substr,
    Function::IndexOf,
    Function::LastIndexOf,
    Function::ReplaceStr,
    Function::ReplaceChr,
    Function::ToLowercase,
    Function::ToUppercase,
    Function::Trim,
    Function::Ltrim,
    Function::Rtrim,
    Function::ExtractToken,
    Function::ExtractValue,
    Function::ExtractPrefix,
    Function::ExtractSuffix,
    Function::ExtractFilename,
    Function::ExtractPath,
    Function::ExtractExtension,
    Function::Urlescape,
    Function::Urlunescape,
    Function::ToString,
    Function::ToInt,
    Function::ToReal,
    Function::ToTimestamp,
    Function::ToDate,
    Function::ToTime,
    Function::Coalesce,
    Function::ReplaceIfNull,
    Function::ReplaceIfNotNull,
    Function::Ipv4ToInt,
    Function::IntToIpv4,
];

impl Function {
    /// The function of this name, whatever its case.
    pub fn by_name(name: &str) -> Option<Function>
        ensures value { result ≡ named name.now }
        ensures back { (function : Function) → named (name_of function) ≡ Some function }
    {
        ALL.iter()
            .copied()
            .find(|function| name.eq_ignore_ascii_case(function.name()))
    }

    /// The name, in capitals.
    pub fn name(self) -> &'static str
        ensures { result.now ≡ name_of self }
    {
        match self {
            Function::Add => "ADD",
            Function::Sub => "SUB",
            Function::Mul => "MUL",
            Function::Div => "DIV",
            Function::Mod => "MOD",
            Function::Quantize => "QUANTIZE",
            Function::Strcat => "STRCAT",
            Function::Strlen => "STRLEN",
            Function::Strcnt => "STRCNT",
            Function::Substr => "SUBSTR",
            Function::IndexOf => "INDEX_OF",
            Function::LastIndexOf => "LAST_INDEX_OF",
            Function::ReplaceStr => "REPLACE_STR",
            Function::ReplaceChr => "REPLACE_CHR",
            Function::ToLowercase => "TO_LOWERCASE",
            Function::ToUppercase => "TO_UPPERCASE",
            Function::Trim => "TRIM",
            Function::Ltrim => "LTRIM",
            Function::Rtrim => "RTRIM",
            Function::ExtractToken => "EXTRACT_TOKEN",
            Function::ExtractValue => "EXTRACT_VALUE",
            Function::ExtractPrefix => "EXTRACT_PREFIX",
            Function::ExtractSuffix => "EXTRACT_SUFFIX",
            Function::ExtractFilename => "EXTRACT_FILENAME",
            Function::ExtractPath => "EXTRACT_PATH",
            Function::ExtractExtension => "EXTRACT_EXTENSION",
            Function::Urlescape => "URLESCAPE",
            Function::Urlunescape => "URLUNESCAPE",
            Function::ToString => "TO_STRING",
            Function::ToInt => "TO_INT",
            Function::ToReal => "TO_REAL",
            Function::ToTimestamp => "TO_TIMESTAMP",
            Function::ToDate => "TO_DATE",
            Function::ToTime => "TO_TIME",
            Function::Coalesce => "COALESCE",
            Function::ReplaceIfNull => "REPLACE_IF_NULL",
            Function::ReplaceIfNotNull => "REPLACE_IF_NOT_NULL",
            Function::Ipv4ToInt => "IPV4_TO_INT",
            Function::IntToIpv4 => "INT_TO_IPV4",
        }
    }
}
