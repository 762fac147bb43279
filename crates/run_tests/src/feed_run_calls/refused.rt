//! Scripts and feeds that are refused.

use super::Row;

/// A script, a feed, the status and the record of the refusal.
pub(super) const REFUSED: [Row; 18] = [
    (
        "table t x:long\nprint t\n",
        "t,t\na,0,1\n",
        6,
        "fault,6,feed,2,unfinished\n",
    ),
    (
        "table t x:long\nb = where t y > 1\n",
        "",
        4,
        "fault,4,script,2,unknown-column\n",
    ),
    (
        "table t x:long\nprint t\n",
        "t,t\na,0,-9223372036854775808\n.\n",
        6,
        "fault,6,feed,2,bad-number\n",
    ),
    (
        "table t x:long\nm1 = merge t t t t t t t t t t t t t t t t\nm2 = merge m1 m1 m1 m1 m1 m1 m1 m1 m1 m1 m1 m1 m1 m1 m1 m1\nm3 = merge m2 m2 m2 m2 m2 m2 m2 m2 m2 m2 m2 m2 m2 m2 m2 m2\nm4 = merge m3 m3 m3 m3 m3 m3 m3 m3 m3 m3 m3 m3 m3 m3 m3 m3\nm5 = merge m4 m4 m4 m4 m4 m4 m4 m4 m4 m4 m4 m4 m4 m4 m4 m4\nm6 = merge m5 m5 m5 m5\n",
        "",
        4,
        "fault,4,script,7,key-space\n",
    ),
    (
        "table t x:long\nprint t\n",
        "x,1\n",
        6,
        "fault,6,feed,1,bad-tag\n",
    ),
    (
        "table t x:long\nprint t\n",
        "a,0,1\n",
        6,
        "fault,6,feed,1,out-of-order\n",
    ),
    (
        "table t x:long\nprint t\n",
        "t,u\n",
        6,
        "fault,6,feed,1,unknown-table\n",
    ),
    (
        "table t x:long\nprint t\n",
        "t,t\nr,2,1\n",
        6,
        "fault,6,feed,2,bad-number\n",
    ),
    (
        "table t x:long\nprint t\n",
        "t,t\na,1,1\na,1,2\n",
        6,
        "fault,6,feed,3,out-of-order\n",
    ),
    ("print t\n", "", 4, "fault,4,script,1,unknown-name\n"),
    (
        "table t x:long x:long\n",
        "",
        4,
        "fault,4,script,1,taken-column\n",
    ),
    (
        "table t x:long\nb = where t x >\n",
        "",
        4,
        "fault,4,script,2,bad-line\n",
    ),
    (
        "table t x:long\nb = where t x > 9223372036854775808\n",
        "",
        4,
        "fault,4,script,2,number-range\n",
    ),
    (
        "table t x:text\nb = where t x > 1\n",
        "",
        4,
        "fault,4,script,2,wrong-kind\n",
    ),
    (
        "table t x:long\nh = head 4194305 t\n",
        "",
        4,
        "fault,4,script,2,number-range\n",
    ),
    (
        "table t x:long\nprint t\nprint t\n",
        "",
        4,
        "fault,4,script,3,taken-name\n",
    ),
    (
        "table t c0:long c1:long c2:long c3:long c4:long c5:long c6:long c7:long c8:long c9:long c10:long c11:long c12:long c13:long c14:long c15:long c16:long c17:long c18:long c19:long c20:long c21:long c22:long c23:long c24:long c25:long c26:long c27:long c28:long c29:long c30:long c31:long c32:long\n",
        "",
        4,
        "fault,4,script,1,too-many-columns\n",
    ),
    (
        "table t x:long\npublish t 0\n",
        "",
        4,
        "fault,4,script,2,number-range\n",
    ),
];
