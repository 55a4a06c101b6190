//! A database of version 1 is made, by statements of its own.

/// Makes the tables of version 1.
pub(super) const TABLES: &str =
    "CREATE TABLE desk (id INT NOT NULL, version INT NOT NULL, odfi TEXT NOT NULL, odfi_name TEXT NOT NULL, destination TEXT NOT NULL, destination_name TEXT NOT NULL, operator_key BLOB NOT NULL, day INT, PRIMARY KEY (id)) STRICT;
CREATE TABLE holidays (day INT NOT NULL, PRIMARY KEY (day)) STRICT;
CREATE TABLE companies (id TEXT NOT NULL, name TEXT NOT NULL, key_digest BLOB NOT NULL, entry_limit INT NOT NULL, credit_limit INT NOT NULL, debit_limit INT NOT NULL, PRIMARY KEY (id)) STRICT;
CREATE TABLE submissions (company TEXT NOT NULL, ord INT NOT NULL, ref TEXT NOT NULL, sec TEXT NOT NULL, direction TEXT NOT NULL, description TEXT NOT NULL, asked INT NOT NULL, of_ref TEXT, of_index INT, lapsed INT NOT NULL, settled INT, file_day INT, modifier TEXT, batch INT, PRIMARY KEY (company, ord), UNIQUE (company, ref)) STRICT;
CREATE TABLE entries (company TEXT NOT NULL, ord INT NOT NULL, idx INT NOT NULL, routing TEXT NOT NULL, account TEXT NOT NULL, savings INT NOT NULL, prenote INT NOT NULL, cents INT NOT NULL, ident TEXT NOT NULL, name TEXT NOT NULL, info TEXT, seq INT, PRIMARY KEY (company, ord, idx)) STRICT;
CREATE TABLE returns (no INTEGER PRIMARY KEY, company TEXT NOT NULL, ord INT NOT NULL, idx INT NOT NULL, code TEXT NOT NULL, day INT NOT NULL, late INT NOT NULL, info TEXT NOT NULL, UNIQUE (company, ord, idx)) STRICT;
CREATE TABLE changes (no INTEGER PRIMARY KEY, company TEXT NOT NULL, ord INT NOT NULL, idx INT NOT NULL, code TEXT NOT NULL, day INT NOT NULL, text TEXT NOT NULL) STRICT;
CREATE TABLE postings (no INTEGER PRIMARY KEY, account TEXT NOT NULL, value_day INT NOT NULL, cents INT NOT NULL, cause TEXT NOT NULL, ref TEXT NOT NULL, idx INT NOT NULL) STRICT;
CREATE TABLE suspense (no INTEGER PRIMARY KEY, file_key TEXT NOT NULL, item INT NOT NULL, why TEXT NOT NULL, code TEXT NOT NULL, trace TEXT NOT NULL, cents INT NOT NULL, day INT NOT NULL) STRICT;
CREATE TABLE files (day INT NOT NULL, modifier TEXT NOT NULL, text BLOB NOT NULL, PRIMARY KEY (day, modifier)) STRICT;
CREATE TABLE taken (file_key TEXT NOT NULL, digest BLOB NOT NULL, day INT NOT NULL, returns INT NOT NULL, changes INT NOT NULL, late INT NOT NULL, suspense INT NOT NULL, PRIMARY KEY (file_key)) STRICT;
CREATE TABLE balances (account TEXT NOT NULL, value_day INT NOT NULL, cents TEXT NOT NULL, PRIMARY KEY (account, value_day)) STRICT";

/// Makes the indexes of version 1.
pub(super) const INDEXES: &str = "CREATE INDEX entries_seq ON entries (seq);
CREATE INDEX submissions_open ON submissions (company, settled, lapsed, ord);
CREATE INDEX submissions_retries ON submissions (company, of_ref);
CREATE INDEX returns_company ON returns (company, day);
CREATE INDEX changes_company ON changes (company, no);
CREATE INDEX postings_account ON postings (account, no)";

/// Writes the desk, and three entries of two companies: the second company's was sent first, and the
/// first company's second entry waits.
pub(super) const ROWS: &str =
    "INSERT INTO desk VALUES (1, 1, '121042882', 'OUR BANK', '061000146', 'ACH OPERATOR', x'0707070707070707070707070707070707070707070707070707070707070707', 20090);
INSERT INTO entries VALUES ('BAKER01', 1, 1, '091000019', '12345', 0, 0, 2500, 'E-1', 'ANN', NULL, 2);
INSERT INTO entries VALUES ('BAKER01', 2, 1, '091000019', '12345', 0, 0, 2500, 'E-2', 'ANN', NULL, NULL);
INSERT INTO entries VALUES ('MILL01', 1, 1, '061000146', '777', 1, 0, 100, 'E-3', 'BOB', NULL, 1)";
