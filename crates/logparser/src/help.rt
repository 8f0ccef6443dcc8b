// What the program says of itself.

pub const VERSION: &str = "logparser 0.1\n";

pub const HELP: &str = "\
logparser [options] query
logparser [options] file:NAME

Reads logs, runs an SQL-like query over their rows, and writes what it gives to standard
output or to files. Statistics and messages go to standard error.

Query (or a file that holds it: file:NAME)
  SELECT [TOP n] [DISTINCT] * | value [AS name], ..
                                    what is written: all rows, or the first n, or none twice
  [USING value AS name, ..]         names for values
  [INTO STDOUT | name]              a file; each * in its name takes a first column's value
  FROM log, ..                      names of files, * and ? in their last part; or STDIN alone
  [WHERE condition]                 = <> < > <= >=, [NOT] LIKE 'pattern', [NOT] IN (..),
                                    [NOT] BETWEEN .. AND .., IS [NOT] NULL, AND, OR, NOT,
                                    parentheses; behind IN values or SELECT value FROM ..
  [GROUP BY value, .. [WITH ROLLUP]]
  [HAVING condition]                which groups are left
  [ORDER BY value, .. [ASC | DESC]] values of SELECT
  A value is a field, a name of AS, a number, a 'text', TIMESTAMP('text', 'pattern'), NULL,
  CASE value WHEN value THEN value .. [ELSE value] END, or what a function gives; of groups
  COUNT(*) COUNT SUM AVG MIN MAX PROPCOUNT(*) GROUPING too.

Functions
  ADD SUB MUL DIV MOD QUANTIZE
  STRCAT STRLEN STRCNT SUBSTR INDEX_OF LAST_INDEX_OF REPLACE_STR REPLACE_CHR
  TO_LOWERCASE TO_UPPERCASE TRIM LTRIM RTRIM URLESCAPE URLUNESCAPE
  EXTRACT_TOKEN EXTRACT_VALUE EXTRACT_PREFIX EXTRACT_SUFFIX
  EXTRACT_FILENAME EXTRACT_PATH EXTRACT_EXTENSION
  TO_STRING TO_INT TO_REAL TO_TIMESTAMP TO_DATE TO_TIME
  SYSTEM_TIMESTAMP SYSTEM_DATE SYSTEM_TIME
  COALESCE REPLACE_IF_NULL REPLACE_IF_NOT_NULL IPV4_TO_INT INT_TO_IPV4

Options, in any order and in any case
  -i:FORMAT      how the logs are read; without it the first log's name decides:
    IISW3C       W3C extended logs, as IIS writes them (ex*.log, u_ex*.log)
    NCSA         access logs in the common or the combined format (nc*.log)
    CSV          a header, and fields between commas, in quotes or not (*.csv)
    TSV          a header, and fields between tabs (*.tsv)
    TEXTLINE     a row for each line (any other name)
    TEXTWORD     a row for each word
  -o:FORMAT      how rows are written:
    NAT          tables to be read by people; the default
    CSV          comma separated values
    TSV          fields between tabs, never quoted
    W3C          a W3C extended log
    TPL          the text of a template
  -tpl:NAME      the file of the template; without -o it chooses TPL
  -e:N           refuse the run where more than N lines can't be read (-1: never)
  -headers:OFF   no line of names (AUTO, ON)
  -rtp:N         NAT: a new table after N rows, 1 to 10000 (10); one of all rows (-1)
  -oSeparator:C  TSV output: what parts fields: space, tab, or another character (tab)
  -fileMode:N    INTO files: 0 adds to a file, 1 writes it anew (1), 2 leaves it alone unless
                 it is empty
  -iCheckpoint:NAME  take only complete lines that no earlier run with this file took, and open the
                 outputs and that file together; INTO names a file then
  -iRotation:NUMBERS with -iCheckpoint: a name behind FROM is a log whose older parts are NAME.1,
                 NAME.2 and so on, the greatest number the newest (NAMES: each name is a log)
  -stats:OFF     no statistics (ON)
  --help         alone: this text
  --version      alone: the version

Options for CSV and TSV logs
  -headerRow:OFF        no header: the columns are Field1, Field2, .. (ON)
  -dtLines:N            from how many rows the kinds of columns are told, 0 to 1000
                        (10, and 100 for TSV)
  -iTsFormat:PATTERN    how times are written ('yyyy-MM-dd hh:mm:ss')
  -iSeparator:C         what parts the fields of TSV: space, tab, or another character (tab)

Fields
  IISW3C    LogFilename LogRow date time c-ip cs-username s-sitename s-computername s-ip
            s-port cs-method cs-uri-stem cs-uri-query sc-status sc-substatus
            sc-win32-status sc-bytes cs-bytes time-taken cs-version cs-host
            cs(User-Agent) cs(Cookie) cs(Referer)
  NCSA      LogFilename LogRow RemoteHostName RemoteLogName UserName DateTime Request
            StatusCode BytesSent Referer User-Agent Cookie
  CSV, TSV  Filename RowNumber, and the columns of the first log that has any
  TEXTLINE, TEXTWORD    LogFilename Index Text

Examples
  logparser \"SELECT * FROM server.txt\"
  logparser -o:CSV \"SELECT cs-uri-stem, time-taken FROM u_ex*.log WHERE sc-status = 404\"
  logparser -o:CSV \"SELECT DateTime, Request FROM nc1.log WHERE StatusCode >= 500\" | head
  logparser \"SELECT TOP 5 c-ip, COUNT(*) AS n FROM u_ex*.log GROUP BY c-ip ORDER BY n DESC\"
  logparser -o:CSV \"SELECT name, MUL(price, 2) AS twice FROM list.csv WHERE name LIKE 'a%'\"
  logparser -iCheckpoint:day.cp -fileMode:0 \"SELECT Text INTO errors.csv FROM app.log\"

The manual is docs/manual.md in the repository; docs/examples.md answers common questions.

Status: 0 whole; 1 out of memory; 2 words or clock; 3 query; 4 logs, outputs, or the template;
5 read fault; 6 disk fault; 7 write fault; 8 too many lines that can't be read;
9 the file of -iCheckpoint is damaged.
";
