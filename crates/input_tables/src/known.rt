// The fields of each format.
ghost use Rattle.std.specs.Prelude.{◌≡◌, map};
ghost use Rattle.iis_fields.specs.Table.{logged_fields};
ghost use Rattle.input_tables.specs.Known.{known};
ghost use Rattle.input_tables.specs.Tables.{ncsa_logged, text_fields};

use crate::field::{How, Known};

/// The fields of IIS logs.
pub(crate) fn iis_known() -> [Known; 22]
    ensures { map known result ≡ logged_fields }
{
    [
        Known {
            name: "date",
            how: How::Day,
        },
        Known {
            name: "time",
            how: How::Clock,
        },
        Known {
            name: "c-ip",
            how: How::Text,
        },
        Known {
            name: "cs-username",
            how: How::Text,
        },
        Known {
            name: "s-sitename",
            how: How::Text,
        },
        Known {
            name: "s-computername",
            how: How::Text,
        },
        Known {
            name: "s-ip",
            how: How::Text,
        },
        Known {
            name: "s-port",
            how: How::Integer,
        },
        Known {
            name: "cs-method",
            how: How::Text,
        },
        Known {
            name: "cs-uri-stem",
            how: How::Text,
        },
        Known {
            name: "cs-uri-query",
            how: How::Text,
        },
        Known {
            name: "sc-status",
            how: How::Integer,
        },
        Known {
            name: "sc-substatus",
            how: How::Integer,
        },
        Known {
            name: "sc-win32-status",
            how: How::Integer,
        },
        Known {
            name: "sc-bytes",
            how: How::Integer,
        },
        Known {
            name: "cs-bytes",
            how: How::Integer,
        },
        Known {
            name: "time-taken",
            how: How::Integer,
        },
        Known {
            name: "cs-version",
            how: How::Text,
        },
        Known {
            name: "cs-host",
            how: How::Text,
        },
        Known {
            name: "cs(User-Agent)",
            how: How::Text,
        },
        Known {
            name: "cs(Cookie)",
            how: How::Text,
        },
        Known {
            name: "cs(Referer)",
            how: How::Text,
        },
    ]
}

/// The fields of NCSA logs.
pub(crate) fn ncsa_known() -> [Known; 10]
    ensures { map known result ≡ ncsa_logged }
{
    [
        Known {
            name: "RemoteHostName",
            how: How::Text,
        },
        Known {
            name: "RemoteLogName",
            how: How::Text,
        },
        Known {
            name: "UserName",
            how: How::Text,
        },
        Known {
            name: "DateTime",
            how: How::Clf,
        },
        Known {
            name: "Request",
            how: How::Text,
        },
        Known {
            name: "StatusCode",
            how: How::Integer,
        },
        Known {
            name: "BytesSent",
            how: How::Integer,
        },
        Known {
            name: "Referer",
            how: How::Text,
        },
        Known {
            name: "User-Agent",
            how: How::Text,
        },
        Known {
            name: "Cookie",
            how: How::Text,
        },
    ]
}

/// The field of a text log.
pub(crate) fn text_known() -> [Known; 1]
    ensures { map known result ≡ text_fields }
{
    [Known {
        name: "Text",
        how: How::Text,
    }]
}
